// A posting: what one line of an import says.
ghost use Rattle.std.specs.Prelude.{Some};
ghost use Rattle.imports.specs.Printed.{posting_text};

use std::fmt;

#[derive(Clone, Copy, Debug, PartialEq, Eq)]
pub enum Posting {
    // Adds the amount to the cell.
    Post { cell: u16, amount: i64 },
    // Takes the amount from one cell and adds it to another.
    Transfer { from: u16, to: u16, amount: i64 },
}

// The letter, the cells and the amount in the smallest unit, parted by tabs.
impl fmt::Display for Posting {
    ghost output = { λ posting. Some (posting_text posting) };

    fn fmt<W: fmt::Write>(&self, f: &mut fmt::Formatter<W>) -> fmt::Result {
        match *self {
            Posting::Post { cell, amount } => write!(f, "P\t{cell}\t{amount}"),
            Posting::Transfer { from, to, amount } => write!(f, "T\t{from}\t{to}\t{amount}"),
        }
    }
}
