// The line of a journal record, written into a lent buffer.
ghost use Rattle.journal.specs.Lines.{Distinct};
ghost use Rattle.journal.specs.Refusals.{WritesLine};

use super::record::Record;
use super::refusal::LineRefusal;

// Writes record `i` into the buffer from `place` on, and answers the place after it.
#[tactic(auto, using(crate::proofs::Distinct::distinct))]
pub fn line(
    journal: &[Record],
    i: usize,
    buffer: &mut [u8],
    place: usize,
) -> Result<usize, LineRefusal>
    ensures answer { WritesLine journal.now i buffer.old place result buffer.new }
    ensures distinct { Distinct }
{
    let kept = journal.get(i).ok_or(LineRefusal::NoRecord)?;
    let space = buffer.len().checked_sub(place).ok_or(LineRefusal::NoPlace)?;
    let text = kept.text();
    // Tried with `get_mut` in place of lengths: what the buffer is after a `None` (`returns-in_err-space`) stayed open.
    if text.len() > space {
        return Err(LineRefusal::NoSpace);
    }
    let end = place + text.len();
    buffer[place..end].copy_from_slice(text.as_bytes());
    Ok(end)
}
