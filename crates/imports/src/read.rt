// Reads the text of an import line by line: cuts off a line, parts its fields, and reads each field.
ghost use Rattle.std.specs.Prelude.{◌≡◌, ◌<◌, length};
ghost use Rattle.money.specs.Amounts.{places};
ghost use Rattle.imports.specs.Reading.{Cuts, LastField, ReadsFields, ReadsCell, ReadsHeading, ReadsRow, ReadsFirstRow, ReadsLine, ReadsHeader};

use super::fault::LineFault;
use super::line::Line;
use super::posting::Posting;
use money::{Code, read_amount, read_number};

// The postings of a text begin behind its first line.
pub const HEADER_BYTES: usize = 6;

// No cell lies above this.
pub const TOP_CELL: u16 = 4095;

const MOST_IN_LINE: usize = 80;

// The code of the header that the text begins with. A text of no bytes has no first line that could be at fault, so that this
// and the next two ask for one byte; a type for such texts would be made at two calls and read there at once.
pub(crate) fn read_header(text: &[u8]) -> Result<Code, LineFault>
    requires { 0 < length text.now }
    ensures { ReadsHeader text.now result }
{
    let row = first_row(text)?;
    read_heading(row)
}

// The posting that the text begins with, and how many bytes its line has.
pub(crate) fn read_line(code: Code, text: &[u8]) -> Result<(Posting, usize), LineFault>
    requires { 0 < length text.now }
    ensures { ReadsLine (places code.letters) text.now result }
{
    let row = first_row(text)?;
    let posting = read_row(code, row)?;
    Ok((posting, row.len() + 1))
}

// The first line of the text, without its end.
fn first_row(text: &[u8]) -> Result<&[u8], LineFault>
    requires { 0 < length text.now }
    ensures { ReadsFirstRow text.now result }
{
    match cut(text, b'\n') {
        Some((row, _)) if row.len() <= MOST_IN_LINE => Ok(row),
        _ => Err(LineFault::End),
    }
}

// The code of a header without its end.
fn read_heading(row: &[u8]) -> Result<Code, LineFault>
    ensures { ReadsHeading row.now result }
{
    let Some(Line::Header { code }) = read_fields(row) else {
        return Err(LineFault::Header);
    };
    Code::new(code).ok_or(LineFault::Header)
}

// The posting of a line without its end.
fn read_row(code: Code, row: &[u8]) -> Result<Posting, LineFault>
    ensures { ReadsRow (places code.letters) row.now result }
{
    match read_fields(row) {
        Some(Line::Post { cell, amount }) => {
            let cell = read_cell(cell)?;
            let amount = read_amount(code, amount)?;
            Ok(Posting::Post { cell, amount })
        }
        Some(
            Line::Transfer {
                cell,
                other,
                amount,
            },
        ) => {
            let from = read_cell(cell)?;
            let to = read_cell(other)?;
            if from == to {
                return Err(LineFault::Twice);
            }
            let amount = read_amount(code, amount)?;
            Ok(Posting::Transfer { from, to, amount })
        }
        Some(Line::Header { .. }) | None => Err(LineFault::Letter),
    }
}

// The letter and the fields of a line.
fn read_fields(row: &[u8]) -> Option<Line<'_>>
    ensures { ReadsFields row.now result }
{
    let (letter, fields) = cut(row, b'\t')?;
    match letter {
        b"H" => {
            let code = last_field(fields)?;
            Some(Line::Header { code })
        }
        b"P" => {
            let (cell, rest) = cut(fields, b'\t')?;
            let amount = last_field(rest)?;
            Some(Line::Post { cell, amount })
        }
        b"T" => {
            let (cell, rest) = cut(fields, b'\t')?;
            let (other, rest) = cut(rest, b'\t')?;
            let amount = last_field(rest)?;
            Some(Line::Transfer {
                cell,
                other,
                amount,
            })
        }
        _ => None,
    }
}

fn read_cell(field: &[u8]) -> Result<u16, LineFault>
    ensures { ReadsCell field.now result }
{
    match read_number(field) {
        // By `as`, which is proved to lose nothing: `try_from` would want a refusal that cannot come.
        Some(n) if n <= u64::from(TOP_CELL) => Ok(n as u16),
        _ => Err(LineFault::Cell),
    }
}

// The field itself, where no tab follows.
fn last_field(field: &[u8]) -> Option<&[u8]>
    ensures { LastField field.now result }
{
    (!field.contains(&b'\t')).then_some(field)
}

// The two sides of the first place where the byte stands.
fn cut(text: &[u8], mark: u8) -> Option<(&[u8], &[u8])>
    ensures { Cuts mark text.now result }
{
    let at = text.iter().position(|b| *b == mark)?;
    Some((&text[..at], &text[at + 1..]))
}
