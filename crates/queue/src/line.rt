// A queue of at most eight seats: what it holds.
ghost use Rattle.std.specs.Prelude.{◌≤◌};

// An array with its length, and no vector of fixed capacity: no vector is `Copy`, which callers of the queue may use, and no clause
// says of one that it holds eight at most.
#[derive(Clone, Copy)]
pub struct Queue {
    pub(crate) seats: [u32; 8],
    pub(crate) len: usize,
    ghost within: { len ≤ 8 },
}
