// The lists that are lent to each call of a book. By a rule of the calls a book owns none of them, so it keeps beside them how much
// of the logs and of the journal is used, and where in the long lists the logs of each helper lie.
ghost use Rattle.std.specs.Prelude.{◌≡◌};
ghost use Rattle.book.specs.Views.{sizes_now};

use journal::Record;
use lane::{Sizes, Written};

#[derive(Drop)]
pub struct Lists<'a> {
    pub cells: &'a mut [i64],
    pub marks: &'a mut [u32],
    // The read logs of the helpers, 64 entries each, and their write logs, 32 each.
    pub reads: &'a mut [u32],
    pub writes: &'a mut [Written],
    pub journal: &'a mut [Record],
}

impl Lists<'_> {
    // How long they are.
    pub(crate) fn sizes(&self) -> Sizes
        ensures { result ≡ sizes_now self.now }
    {
        Sizes {
            cells: self.cells.len(),
            marks: self.marks.len(),
            reads: self.reads.len(),
            writes: self.writes.len(),
            journal: self.journal.len(),
        }
    }
}
