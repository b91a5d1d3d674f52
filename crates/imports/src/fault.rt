// What can be wrong with an import: an amount's fault stands whole inside its line's, and that inside the import's.
ghost use Rattle.std.specs.Prelude.{◌≡◌, Some};
ghost use Rattle.imports.specs.declared.fault.ImportFault.{ImportFault};
ghost use Rattle.imports.specs.declared.fault.LineFault.{LineFault};
ghost use Rattle.imports.specs.Numbers.{import_fault_line, import_fault_number, line_fault_number};
ghost use Rattle.imports.specs.Printed.{fault_text};

use money::AmountFault;
use std::fmt;

#[derive(Clone, Copy, Debug, PartialEq, Eq)]
pub enum LineFault {
    // The line is not ended, or longer than 80 bytes.
    End,
    // The first line is no header.
    Header,
    // Neither a P with two fields nor a T with three.
    Letter,
    // A cell's field is no number of a cell.
    Cell,
    // A transfer names one cell twice.
    Twice,
    // The amount's own fault.
    Amount(AmountFault),
}

impl LineFault {
    pub fn number(self) -> u32
        ensures { result ≡ line_fault_number self }
    {
        // No discriminants, since the last kind has the number of the fault in it.
        match self {
            LineFault::End => 61,
            LineFault::Header => 62,
            LineFault::Letter => 63,
            LineFault::Cell => 64,
            LineFault::Twice => 65,
            LineFault::Amount(fault) => fault.number(),
        }
    }
}

// By hand, as the next one, since a `From` that a derive writes has no contract, and clauses name what `?` makes.
impl From<AmountFault> for LineFault {
    ghost from_gives = { λ fault line. line ≡ LineFault.Amount fault };

    fn from(amount: AmountFault) -> LineFault {
        LineFault::Amount(amount)
    }
}

// A line, counted from 1, with its fault.
#[derive(Clone, Copy, Debug, PartialEq, Eq)]
pub struct FaultyLine {
    pub line: u32,
    pub fault: LineFault,
}

#[derive(Clone, Copy, Debug, PartialEq, Eq)]
pub enum ImportFault {
    // The text is empty, or longer than 32,768 bytes.
    Size,
    Line(FaultyLine),
}

impl ImportFault {
    // The faulty line, or 0 where the fault is the size of the text: a number and no Option, since it is what is printed.
    pub fn line(self) -> u32
        ensures { result ≡ import_fault_line self }
    {
        match self {
            ImportFault::Size => 0,
            ImportFault::Line(faulty) => faulty.line,
        }
    }

    pub fn number(self) -> u32
        ensures { result ≡ import_fault_number self }
    {
        // A match, since the number is that of the fault inside.
        match self {
            ImportFault::Size => 60,
            ImportFault::Line(faulty) => faulty.fault.number(),
        }
    }
}

impl From<FaultyLine> for ImportFault {
    ghost from_gives = { λ faulty import. import ≡ ImportFault.Line faulty };

    fn from(named: FaultyLine) -> ImportFault {
        ImportFault::Line(named)
    }
}

// The line and the number, parted by a tab.
impl fmt::Display for ImportFault {
    ghost output = { λ fault. Some (fault_text fault) };

    fn fmt<W: fmt::Write>(&self, f: &mut fmt::Formatter<W>) -> fmt::Result {
        let line = self.line();
        let number = self.number();
        write!(f, "{line}\t{number}")
    }
}
