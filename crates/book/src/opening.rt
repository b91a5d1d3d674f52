// When a book is not opened, and what is opened otherwise.
ghost use Rattle.std.specs.Prelude.{◌≡◌, ◌*◌, ◌||◌, nat_lt};
ghost use Rattle.std.specs.Result.{result_err};
ghost use Rattle.lane.specs.Calls.{open_refusal, some_beyond};
ghost use Rattle.book.specs.Views.{bare, bare_open, opened_with};

use super::chair::Chair;
use super::common::Common;
use super::desk::Desk;
use super::limits::{
    MOST_CELLS, MOST_HELPERS, MOST_MARKS, MOST_READS, MOST_RECORDS, MOST_WRITES, TOP_NUMBER,
};
use super::lists::Lists;
use lane::OpenRefusal;
use money::is_within;
use queue::Queue;

// What a book is opened with, beside its lists.
#[derive(Clone, Copy)]
pub(crate) struct Terms {
    pub name: u32,
    pub helpers: u32,
    pub number: u32,
}

impl Terms {
    // Refuses with the first condition that fails.
    pub(crate) fn admit(&self, lists: &Lists<'_>) -> Result<(), OpenRefusal>
        ensures { result_err result ≡ open_refusal (opened_with self.now.name self.now.helpers self.now.number lists.now) }
    {
        let cells = lists.cells.len();
        if cells == 0 || cells > MOST_CELLS {
            return Err(OpenRefusal::Cells);
        }
        let marks = lists.marks.len();
        if marks == 0 || marks > MOST_MARKS {
            return Err(OpenRefusal::Marks);
        }
        if too_short(lists.reads.len(), lists.writes.len(), self.helpers) {
            return Err(OpenRefusal::Helpers);
        }
        if lists.journal.len() > MOST_RECORDS {
            return Err(OpenRefusal::Journal);
        }
        if self.number % 2 == 1 || self.number >= TOP_NUMBER {
            return Err(OpenRefusal::Number);
        }
        if beyond(&*lists.cells) {
            return Err(OpenRefusal::Amount);
        }
        Ok(())
    }

    // A desk with all seats idle and nothing recorded.
    pub(crate) fn desk<B>(&self, lists: &Lists<'_>) -> Desk<B>
        ensures { bare result ≡ bare_open (opened_with self.now.name self.now.helpers self.now.number lists.now) }
    {
        Desk {
            name: self.name,
            helpers: self.helpers,
            sizes: lists.sizes(),
            common: Common {
                number: self.number,
                flag: false,
                paused: false,
                queue: Queue::new(),
            },
            // Nine by name: the borrow checker covers no repeat of what is not `Copy`, and by `array::from_fn`, which was tried,
            // `returns` stayed open.
            chairs: [
                Chair::empty(),
                Chair::empty(),
                Chair::empty(),
                Chair::empty(),
                Chair::empty(),
                Chair::empty(),
                Chair::empty(),
                Chair::empty(),
                Chair::empty(),
            ],
            used: 0,
        }
    }
}

// Whether there are too many helpers, or a log list is too short for them: the logs of all helpers lie in one lent list each.
fn too_short(reads: usize, writes: usize, helpers: u32) -> bool
    ensures { result ≡ (nat_lt 8 helpers || (nat_lt reads (64 * helpers) || nat_lt writes (32 * helpers))) }
{
    let few = helpers as usize;
    helpers > MOST_HELPERS || reads < MOST_READS * few || writes < MOST_WRITES * few
}

// Whether an amount is beyond the limit.
fn beyond(cells: &[i64]) -> bool
    ensures { result ≡ some_beyond cells.now }
{
    cells.iter().any(|amount| !is_within(*amount))
}
