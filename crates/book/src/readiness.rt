// Whether a seat may step, and what it is to do.
ghost use Rattle.std.specs.Prelude.{◌≡◌, ◌+◌, ◌≤◌, length, None, slice_index_or};
ghost use Rattle.lane.specs.Calls.{same_sizes};
ghost use Rattle.lane.specs.Worlds.{stretch};
ghost use Rattle.book.specs.Books.{book_world};
ghost use Rattle.book.specs.Chairs.{bodies_of, seats_of};
ghost use Rattle.book.specs.Views.{if_there, ready_of, world};

use super::book::Book;
use super::desk::Desk;
use super::limits::{MOST_READS, MOST_WRITES};
use super::lists::Lists;
use super::ready::Ready;
use super::sight::Sight;
use body::Body;
use lane::{Seated, StepRefusal};

impl<B: Body> Book<B> {
    // What the seat is to do, or why it may not step. This, `Desk::act` and what decides are inlined into the step, as is `request` of a
    // total: with calls between them what they hand on goes through memory, and a program with books of several kinds of body took
    // 1.4 to 1.7 times as long for a step.
    #[inline(always)]
    pub(crate) fn ready(&self, lists: &Lists<'_>, seat: u32) -> Result<Ready, StepRefusal>
        ensures { result ≡ ready_of B.Body (book_world self.now lists.now) seat }
    {
        let desk = &self.desk;
        if seat > desk.helpers {
            return Err(StepRefusal::NoSeat);
        }
        let seated = desk.seated_at(seat).ok_or(StepRefusal::Idle)?;
        let body = desk.body_at(seat).ok_or(StepRefusal::Idle)?;
        if !desk.lent_whole(lists) {
            return Err(StepRefusal::Lists);
        }
        // The logs of all helpers lie in one lent list each.
        let helper = seat.saturating_sub(1) as usize;
        let sight = Sight {
            common: &desk.common,
            cells: &*lists.cells,
            marks: &*lists.marks,
            seat,
            seated,
            reads: part(&*lists.reads, MOST_READS * helper, seated.reads),
            writes: part(&*lists.writes, MOST_WRITES * helper, seated.writes),
        };
        if !sight.entry_there() {
            return Err(StepRefusal::Lists);
        }
        Ok(Ready {
            seated,
            step: sight.decide(body),
            kind: body.kind_of(),
        })
    }
}

impl<B> Desk<B> {
    // Whether the lists are as long as at open.
    pub(crate) fn lent_whole(&self, lists: &Lists<'_>) -> bool
        ensures { result ≡ same_sizes (world self.now lists.now) }
    {
        lists.sizes() == self.sizes
    }

    // The transaction at a seat.
    pub(crate) fn seated_at(&self, seat: u32) -> Option<Seated>
        ensures { result ≡ slice_index_or (seats_of self.now.chairs) seat None }
    {
        self.chairs.get(seat as usize)?.seated
    }

    // The body at a seat, of its transaction or of its last one.
    pub(crate) fn body_at(&self, seat: u32) -> Option<&B>
        ensures { if_there (λ x. x.now) result ≡ slice_index_or (bodies_of self.now.chairs) seat None }
    {
        self.chairs.get(seat as usize)?.body.as_ref()
    }
}

// So many entries of a list from a place on.
fn part<E>(list: &[E], from: usize, count: u32) -> &[E]
    requires { from + count ≤ length list.now }
    ensures { result.now ≡ stretch list.now from count }
{
    &list[from..from + count as usize]
}
