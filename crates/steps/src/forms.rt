// The forms that steps have.
ghost use Rattle.std.specs.Prelude.{◌≡◌, pos, slice_index_or};
ghost use Rattle.lane.specs.Phases.{breaks_off, commits_as, does, goes, hands, restarts, stays, takes_write, too_long};

use lane::{Answer, Effect, LogChange, Phase, Step, Told};

// The seat becomes idle, and nothing else happens. The forms say in what they differ from this one.
pub(crate) const IDLING: Step = Step {
    next: None,
    answer: Answer::GoneOn,
    told: Told::Nothing,
    log: LogChange::Same,
    effect: Effect::Unchanged,
};

// Goes on, and changes nothing that is shared.
pub(crate) fn going(phase: Phase) -> Step
    ensures { result ≡ goes phase }
{
    Step {
        next: Some(phase),
        ..IDLING
    }
}

// Goes on, and changes this one thing.
pub(crate) fn doing(effect: Effect, phase: Phase) -> Step
    ensures { result ≡ does effect phase }
{
    Step {
        effect,
        ..going(phase)
    }
}

// Stays, and changes nothing.
pub(crate) fn staying(answer: Answer, phase: Phase) -> Step
    ensures { result ≡ stays answer phase }
{
    Step {
        answer,
        ..going(phase)
    }
}

// The attempt is broken off, and begins anew.
pub(crate) fn breaking_off(effect: Effect) -> Step
    ensures { result ≡ breaks_off effect }
{
    Step {
        answer: Answer::BrokenOff,
        effect,
        ..going(Phase::Begin)
    }
}

// The body is restarted, in an attempt with this start.
pub(crate) fn restarting(start: u32, effect: Effect, phase: Phase) -> Step
    ensures { result ≡ restarts start effect phase }
{
    Step {
        told: Told::Restarted(start),
        log: LogChange::Emptied,
        effect,
        ..going(phase)
    }
}

// The body is told the amount that it asked for. A cell and its amount stay two parameters here and in the steps: requests,
// tellings and effects hold them as two fields, so a struct of both would be built and taken apart again at each.
pub(crate) fn handing(cell: u32, amount: i64, log: LogChange, phase: Phase) -> Step
    ensures { result ≡ hands cell amount log phase }
{
    Step {
        told: Told::Handed(cell, amount),
        log,
        ..going(phase)
    }
}

// The body is told that its write was taken.
pub(crate) fn taking_write(
    cell: u32,
    amount: i64,
    log: LogChange,
    effect: Effect,
    phase: Phase,
) -> Step
    ensures { result ≡ takes_write cell amount log effect phase }
{
    Step {
        told: Told::Taken(cell, amount),
        log,
        effect,
        ..going(phase)
    }
}

// The transaction commits under this number.
pub(crate) fn committing(number: u32, effect: Effect, next: Option<Phase>) -> Step
    ensures { result ≡ commits_as number effect next }
{
    Step {
        next,
        answer: Answer::Committed(number),
        effect,
        ..IDLING
    }
}

// The transaction does not fit its logs, and is given up.
pub(crate) fn giving_up() -> Step
    ensures { result ≡ too_long }
{
    Step {
        answer: Answer::TooLong,
        ..IDLING
    }
}

// What a cell holds. Of a cell that is not there, which no body in a run names, 0.
pub(crate) fn amount_at(cells: &[i64], cell: u32) -> i64
    ensures { result ≡ slice_index_or cells.now cell (pos 0) }
{
    cells.get(cell as usize).copied().unwrap_or(0)
}
