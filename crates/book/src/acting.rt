// Takes a step that was decided.
ghost use Rattle.std.specs.Prelude.{◌≡◌, ◌+◌, ◌^◌, ◌<◌, ◌≤◌, length, Some, None, slice_index_or};
ghost use Rattle.lane.specs.Calls.{seated_to, step_world};
ghost use Rattle.book.specs.Chairs.{bodies_of};
ghost use Rattle.book.specs.Views.{CanAct, moved_with, world};

use super::changing::{change, change_cells, change_marks};
use super::desk::Desk;
use super::lists::Lists;
use super::logging::{Used, log};
use super::ready::Ready;
use super::recording::{made_after, note};
use super::telling::tell;
use body::Body;
use lane::{Seated, Told};

impl<B: Body> Desk<B> {
    #[inline(always)]
    pub(crate) fn act(&mut self, lists: &mut Lists<'_>, seat: u32, ready: Ready)
        requires { CanAct B.Body (world self.old lists.old) seat ready }
        ensures { (b : B) → slice_index_or (bodies_of self.old.chairs) seat None ≡ Some b → world self.new lists.new ≡ step_world B.Body (world self.old lists.old) seat ready.seated b ready.step }
    {
        let Ready { seated, step, .. } = ready;
        let at = seat as usize;
        let number = self.common.number;
        let room = self.used < self.sizes.journal;
        let record = ready.record(seat, number);
        self.used = note(lists.journal, self.used, record);
        change_marks(lists.marks, number, step.effect);
        change_cells(lists.cells, step.effect);
        change(&mut self.common, seat, step.effect);
        let used = log(lists.reads, lists.writes, seat, seated, step.log);
        let chair = &mut self.chairs[at];
        tell(&mut chair.body, step.told);
        chair.seated = ready.moved(used, room);
    }
}

impl Ready {
    // What the book knows of the transaction after the step.
    fn moved(self, used: Used, room: bool) -> Option<Seated>
        requires { self.seated.made + 1 < 2 ^ 32 }
        ensures { result ≡ seated_to self.step.next (moved_with self.seated self.step used.reads used.writes room) }
    {
        let phase = self.step.next?;
        let start = match self.step.told {
            Told::Restarted(start) => start,
            _ => self.seated.start,
        };
        Some(Seated {
            phase,
            start,
            reads: used.reads,
            writes: used.writes,
            made: made_after(self.step.effect, room, self.seated.made),
            ..self.seated
        })
    }
}
