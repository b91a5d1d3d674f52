// What a log has entries of: whatever tells its cell.
ghost use Rattle.std.specs.Prelude.{◌≡◌, ℕ};
ghost use Rattle.lane.specs.Logs.{cell_of, itself};

use lane::Written;

pub trait Entry: Copy {
    // The cell that an entry tells.
    ghost cell: { Self → ℕ };

    fn cell_of(&self) -> u32
        ensures { result ≡ cell self.now };
}

// An entry of a read log is its cell.
impl Entry for u32 {
    ghost cell = { itself };

    fn cell_of(&self) -> u32 {
        *self
    }
}

// An entry of a write log has an amount beside it.
impl Entry for Written {
    ghost cell = { cell_of };

    fn cell_of(&self) -> u32 {
        self.cell
    }
}
