// An import as a body: what it holds.
ghost use Rattle.std.specs.Prelude.{◌≡◌};
ghost use Rattle.body.specs.Reading.{place};

use imports::{Checked, Posting};

#[derive(Drop)]
pub struct Import {
    pub(crate) checked: Checked,
    // How many postings were taken from the text, and where the next one begins. They are no struct of their own, since what
    // ties them, `placed`, names the text too.
    pub(crate) taken: usize,
    pub(crate) at: usize,
    pub(crate) step: ImportStep,
    // How many lines were only counted.
    pub(crate) unposted: u32,
    ghost placed: { at ≡ place checked taken },
}

// Kept between two calls, and named by the definitions, so that it is an enum and no closure.
#[derive(Clone, Copy)]
pub enum ImportStep {
    // To read the first cell of this posting.
    Read {
        posting: Posting,
    },
    // To read the second cell of a transfer; the first held this amount. A `Posting` in it would leave open that it is a transfer.
    ReadOther {
        from: u16,
        to: u16,
        amount: i64,
        held: i64,
    },
    // To write both cells of a transfer.
    WriteBoth {
        from: u16,
        left: i64,
        to: u16,
        grown: i64,
    },
    // To write the last cell of a posting.
    Write {
        cell: u16,
        grown: i64,
    },
    Done,
}
