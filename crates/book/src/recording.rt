// What a step records.
ghost use Rattle.std.specs.Prelude.{◌≡◌, ◌+◌, ◌^◌, ◌<◌, length, nat_lt};
ghost use Rattle.lane.specs.Calls.{commit_record, journal_after, made_by, record_by, used_after};

use super::ready::Ready;
use journal::Record;
use lane::{Answer, Effect};

impl Ready {
    // The record of the step: of the change, where it sets a cell, and otherwise of the commit, where it commits.
    pub(crate) fn record(self, seat: u32, number: u32) -> Option<Record>
        ensures { result ≡ record_by self.step.effect number (commit_record self.kind seat self.seated self.step.answer) }
    {
        match self.step.effect {
            Effect::CellSet(cell, amount) => Some(Record::Change {
                number,
                cell,
                amount,
            }),
            _ => self.commit(seat),
        }
    }

    fn commit(self, seat: u32) -> Option<Record>
        ensures { result ≡ commit_record self.kind seat self.seated self.step.answer }
    {
        match self.step.answer {
            Answer::Committed(number) => Some(Record::Commit {
                number,
                seat,
                kind: self.kind,
                tag: self.seated.tag,
                count: self.seated.made,
            }),
            _ => None,
        }
    }
}

// How many changes the transaction has recorded after the step.
pub(crate) fn made_after(effect: Effect, room: bool, made: u32) -> u32
    requires { made + 1 < 2 ^ 32 }
    ensures { result ≡ made_by effect room made }
{
    match effect {
        Effect::CellSet(_, _) if room => made + 1,
        _ => made,
    }
}

// A record goes behind those that are used, if there is room. Answers how many are used then.
pub(crate) fn note(journal: &mut [Record], used: usize, entry: Option<Record>) -> usize
    ensures after { journal.new ≡ journal_after (nat_lt used (length journal.old)) entry used journal.old }
    ensures counted { result ≡ used_after (nat_lt used (length journal.old)) entry used }
{
    let Some(entry) = entry else {
        return used;
    };
    // By `get_mut`: tried, and `returns-in-Some-get_mut-clause-after` stayed open, as where a cell is set.
    if used < journal.len() {
        journal[used] = entry;
        used + 1
    } else {
        used
    }
}
