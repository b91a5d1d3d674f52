// What a step does to what the seats share.
ghost use Rattle.std.specs.Prelude.{◌≡◌, ◌+◌, ◌^◌, ◌<◌, [], length, slice_set};
ghost use Rattle.lane.specs.declared.step.Effect.TheVariants.{NumberLowered, QueueJoined};
ghost use Rattle.lane.specs.Effects.{shared_after};
ghost use Rattle.queue.specs.Queued.{queued};
ghost use Rattle.book.specs.Views.{cells_after, marks_after, shared_of};

use super::common::Common;
use lane::Effect;

// The word and the queue. What the machine's definitions promise of a step names its effect, which a closure has no name for.
#[inline(always)]
pub(crate) fn change(common: &mut Common, seat: u32, effect: Effect)
    requires small { common.old.number + 1 < 2 ^ 32 }
    requires lowers { effect ≡ NumberLowered → 0 < common.old.number }
    requires joins { effect ≡ QueueJoined → length (queued common.old.queue) < 8 }
    ensures { shared_of common.new [] [] ≡ shared_after seat effect (shared_of common.old [] []) }
{
    match effect {
        Effect::Unchanged | Effect::MarkSet(_) | Effect::CellSet(_, _) => {}
        Effect::FlagSet => common.flag = true,
        Effect::LaneTaken => {
            common.number += 1;
            common.flag = false;
        }
        Effect::NumberRaised => common.number += 1,
        Effect::NumberLowered => common.number -= 1,
        Effect::QueueJoined => common.queue.join(seat),
        Effect::QueueLeft => common.queue.leave(seat),
    }
}

// A mark becomes the number.
pub(crate) fn change_marks(marks: &mut [u32], number: u32, effect: Effect)
    requires { 0 < length marks.old }
    ensures { marks.new ≡ marks_after effect number marks.old }
{
    if let Effect::MarkSet(cell) = effect {
        let at = cell as usize % marks.len();
        marks[at] = number;
    }
}

// A cell gets an amount.
pub(crate) fn change_cells(cells: &mut [i64], effect: Effect)
    ensures { cells.new ≡ cells_after effect cells.old }
{
    if let Effect::CellSet(cell, amount) = effect {
        set_cell(cells, cell, amount);
    }
}

// A cell that is not there, which no body in a run names, is passed over.
fn set_cell(cells: &mut [i64], cell: u32, amount: i64)
    ensures { cells.new ≡ slice_set cells.old cell amount }
{
    let at = cell as usize;
    // By `get_mut`: tried, and `returns-in-Some` stayed open, since only a slice's length is known once its place was lent.
    if at < cells.len() {
        cells[at] = amount;
    }
}
