// The check of an import text: it admits what is the writing of some postings, and names a faulty line of anything else.
ghost use Rattle.std.specs.Prelude.{◌≡◌};
ghost use Rattle.imports.specs.Checks.{Checks, Surveys};
ghost use Rattle.imports.specs.Texts.{Unambiguous};

use super::checked::Checked;
use super::fault::{FaultyLine, ImportFault};
use super::read::{HEADER_BYTES, read_header, read_line};
use super::survey::Survey;
use super::totals::Totals;

// No text is longer.
pub const MOST_BYTES: usize = 32_768;

pub fn check(text: Vec<u8>) -> Result<Checked, ImportFault>
    ensures answer { Checks text.items result }
    ensures unambiguous { Unambiguous }
{
    let Survey { code, totals } = survey(text.as_slice())?;
    Ok(Checked { text, code, totals })
}

// The check of a text that stays where it is.
fn survey(text: &[u8]) -> Result<Survey, ImportFault>
    ensures { Surveys text.now result }
{
    if text.is_empty() || text.len() > MOST_BYTES {
        return Err(ImportFault::Size);
    }
    let code = read_header(text).map_err(|fault| FaultyLine { line: 1, fault })?;
    let mut totals = Totals::default();
    let mut rest = &text[HEADER_BYTES..];
    // Not by the cursor of postings, which stops at a line that it cannot read and tells no fault.
    while !rest.is_empty() {
        let line = totals.count + 2;
        let (posting, used) = read_line(code, rest).map_err(|fault| FaultyLine { line, fault })?;
        totals = totals.with(posting);
        rest = &rest[used..];
    }
    Ok(Survey { code, totals })
}
