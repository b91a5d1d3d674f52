// What an import counts over its postings.
use super::posting::Posting;

#[derive(Clone, Copy, Debug, Default, PartialEq, Eq)]
pub struct Totals {
    // How many postings there are.
    pub count: u32,
    // Every cell that they name lies below this: the highest one, plus 1, or 0 where none is named.
    pub reach: u32,
    // How many cells they read and write: 2 for each post, 4 for each transfer.
    pub length: u32,
}

impl Totals {
    ghost use Rattle.std.specs.Prelude.{◌+◌, ◌^◌, ◌<◌};
    ghost use Rattle.imports.specs.Texts.{posting_length};
    ghost use Rattle.imports.specs.Totals.{Adds};

    // One posting more.
    pub(crate) fn with(self, posting: Posting) -> Totals
        requires count { self.count + 1 < 2 ^ 32 }
        requires length { self.length + posting_length posting < 2 ^ 32 }
        ensures { Adds self posting result }
    {
        let (highest, length) = match posting {
            Posting::Post { cell, .. } => (cell, 2),
            Posting::Transfer { from, to, .. } => (from.max(to), 4),
        };
        Totals {
            count: self.count + 1,
            reach: self.reach.max(u32::from(highest) + 1),
            length: self.length + length,
        }
    }
}
