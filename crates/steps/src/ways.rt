// The steps by which a helper comes to its commit, or gives the attempt up.
ghost use Rattle.std.specs.Prelude.{◌≡◌, ◌+◌, cond, Some, None, nat_lt};
ghost use Rattle.lane.specs.Phases.{after_release, after_swap, cell_step, leave_step, let_go_step, look_even, look_step, mark_step, prevalidate_step, quit_step, release_step, swap_step, validate_step, wait_step, way_step};

use super::forms::{IDLING, breaking_off, committing, doing, going, staying};
use lane::{Answer, Effect, Phase, Step, Way};

// The first step of each way. This and two others depend on the way alone; closures for the ways would be no plainer.
pub(crate) fn first_of_way(number: u32, way: Way) -> Step
    ensures { result ≡ way_step number way }
{
    match way {
        Way::One => look(number, Way::One, None),
        Way::Two | Way::Three => doing(Effect::QueueJoined, Phase::Wait),
    }
}

// Waits to be the first in the queue.
pub fn wait(first: bool) -> Step
    ensures { result ≡ wait_step first }
{
    if first {
        going(Phase::Look { checked: None })
    } else {
        staying(Answer::Waiting, Phase::Wait)
    }
}

// Waits until the lane is free, and remembers the number.
pub fn look(number: u32, way: Way, checked: Option<u32>) -> Step
    ensures { result ≡ look_step number way checked }
{
    if number % 2 == 1 {
        staying(Answer::Waiting, Phase::Look { checked })
    } else {
        look_even(number, way, checked)
    }
}

fn look_even(number: u32, way: Way, checked: Option<u32>) -> Step
    ensures { result ≡ look_even number way checked }
{
    match (way, checked) {
        (Way::One, _) => going(Phase::Swap {
            checked: None,
            seen: number,
        }),
        (Way::Two, Some(first)) => going(Phase::Swap {
            checked: Some(first),
            seen: number,
        }),
        (Way::Two, None) | (Way::Three, _) => going(Phase::Prevalidate {
            seen: number,
            at: 0,
        }),
    }
}

// Goes to the next entry if this one is fresh, before the lane is taken.
pub fn prevalidate(stale: bool, count: u32, seen: u32, at: u32) -> Step
    ensures { result ≡ prevalidate_step stale count seen at }
{
    if stale {
        return going(Phase::Quit);
    }
    match next_entry(at, count) {
        Some(at) => going(Phase::Prevalidate { seen, at }),
        None => going(Phase::Swap {
            checked: Some(seen),
            seen,
        }),
    }
}

// Takes the lane, if the word is still the number that was seen, with the flag clear.
pub fn swap(number: u32, flag: bool, checked: Option<u32>, seen: u32) -> Step
    ensures { result ≡ swap_step number flag checked seen }
{
    if number == seen && !flag {
        doing(Effect::NumberRaised, after_swap(checked, seen))
    } else {
        going(Phase::Look { checked })
    }
}

// Entries that were found fresh as of a lower number are found fresh again.
fn after_swap(checked: Option<u32>, seen: u32) -> Phase
    ensures { result ≡ after_swap checked seen }
{
    match checked {
        Some(first) if first >= seen => Phase::Mark { at: 0 },
        _ => Phase::Validate { at: 0 },
    }
}

// Goes to the next entry if this one is fresh, in the lane. Each phase that it goes to differs from those of `prevalidate`, so
// one function of both would take three phases and be no plainer.
pub fn validate(stale: bool, count: u32, at: u32) -> Step
    ensures { result ≡ validate_step stale count at }
{
    if stale {
        return going(Phase::LetGo);
    }
    match next_entry(at, count) {
        Some(at) => going(Phase::Validate { at }),
        None => going(Phase::Mark { at: 0 }),
    }
}

// Sets the mark of an entry's cell.
pub fn mark(cell: u32, at: u32) -> Step
    ensures { result ≡ mark_step cell at }
{
    doing(Effect::MarkSet(cell), Phase::Cell { at })
}

// Sets an entry's cell, and goes to the next entry.
pub fn set_cell(cell: u32, amount: i64, count: u32, at: u32) -> Step
    ensures { result ≡ cell_step cell amount count at }
{
    match next_entry(at, count) {
        Some(at) => doing(Effect::CellSet(cell, amount), Phase::Mark { at }),
        None => doing(Effect::CellSet(cell, amount), Phase::Release),
    }
}

// The place of the entry after this one, of so many entries, if there is one.
fn next_entry(at: u32, count: u32) -> Option<u32>
    ensures { result ≡ cond (nat_lt (at + 1) count) (Some (at + 1)) None }
{
    at.checked_add(1).filter(|next| *next < count)
}

// Commits under the odd number, and gives the lane back.
pub fn release(number: u32, way: Way) -> Step
    ensures { result ≡ release_step number way }
{
    committing(number, Effect::NumberRaised, after_release(way))
}

fn after_release(way: Way) -> Option<Phase>
    ensures { result ≡ after_release way }
{
    match way {
        Way::One => None,
        Way::Two | Way::Three => Some(Phase::Leave),
    }
}

// Gives the lane back with nothing done.
pub fn let_go(way: Way) -> Step
    ensures { result ≡ let_go_step way }
{
    match way {
        Way::One => breaking_off(Effect::NumberLowered),
        Way::Two | Way::Three => doing(Effect::NumberLowered, Phase::Quit),
    }
}

// Leaves the queue, and begins anew.
pub fn quit() -> Step
    ensures { result ≡ quit_step }
{
    breaking_off(Effect::QueueLeft)
}

// Leaves the queue after the commit.
pub fn leave() -> Step
    ensures { result ≡ leave_step }
{
    Step {
        effect: Effect::QueueLeft,
        ..IDLING
    }
}
