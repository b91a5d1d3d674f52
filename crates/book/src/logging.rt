// What a step does to the logs of its seat.
ghost use Rattle.std.specs.Prelude.{◌≡◌, ◌+◌, ◌<◌, ◌≤◌, length};
ghost use Rattle.lane.specs.Logs.{laid, place_by, used_with};
ghost use Rattle.lane.specs.Worlds.{reads_from, reads_laid, reads_used, stretch, writes_from, writes_laid, writes_used};
ghost use Rattle.book.specs.Views.{ReadsFit, WritesFit};

use super::limits::{MOST_READS, MOST_WRITES};
use lane::{LogChange, Seated, Written};
use logs::Entry;

// How many entries of its logs a seat uses.
#[derive(Clone, Copy)]
pub(crate) struct Used {
    pub reads: u32,
    pub writes: u32,
}

// The seat's logs after a step. The logs of all helpers lie in one lent list each, so that a helper's is found by its place.
pub(crate) fn log(
    reads: &mut [u32],
    writes: &mut [Written],
    seat: u32,
    seated: Seated,
    change: LogChange,
) -> Used
    requires reads_fit { ReadsFit change seat seated reads.old }
    requires writes_fit { WritesFit change seat seated writes.old }
    ensures reads_laid { reads.new ≡ reads_laid change (stretch reads.old (reads_from seat) seated.reads) (reads_from seat) reads.old }
    ensures reads_counted { result.reads ≡ reads_used change (stretch reads.old (reads_from seat) seated.reads) seated.reads }
    ensures writes_laid { writes.new ≡ writes_laid change (stretch writes.old (writes_from seat) seated.writes) (writes_from seat) writes.old }
    ensures writes_counted { result.writes ≡ writes_used change (stretch writes.old (writes_from seat) seated.writes) seated.writes }
{
    let before = Used {
        reads: seated.reads,
        writes: seated.writes,
    };
    // What is done to a log is a value that the definitions of a step name, so that it is a match and no closure.
    match change {
        LogChange::Same => before,
        LogChange::Emptied => Used {
            reads: 0,
            writes: 0,
        },
        LogChange::Noted(cell) => {
            let base = MOST_READS * (seat as usize - 1);
            Used {
                reads: enter(reads, base, MOST_READS, seated.reads, cell),
                ..before
            }
        }
        LogChange::Entered(cell, amount) => {
            let base = MOST_WRITES * (seat as usize - 1);
            let entry = Written { cell, amount };
            Used {
                writes: enter(writes, base, MOST_WRITES, seated.writes, entry),
                ..before
            }
        }
    }
}

// The entry goes to the log that lies in the list from `base` on. Answers how many entries the log has then.
fn enter<E: Entry>(list: &mut [E], base: usize, size: usize, used: u32, entry: E) -> u32
    requires within { base + size ≤ length list.old }
    requires few { used ≤ size }
    requires small { size ≤ 64 }
    requires room { place_by E.Entry.cell (E.Entry.cell entry) (stretch list.old base used) < size }
    ensures laid { list.new ≡ laid E.Entry.cell entry (stretch list.old base used) base list.old }
    ensures counted { result ≡ used_with E.Entry.cell entry (stretch list.old base used) used }
{
    let grown = logs::enter(&mut list[base..base + size], used as usize, entry);
    if grown { used + 1 } else { used }
}
