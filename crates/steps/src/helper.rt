// The steps of a helper's attempt.
ghost use Rattle.std.specs.Prelude.{◌≡◌, cond};
ghost use Rattle.lane.specs.declared.step.Effect.TheVariants.{Unchanged};
ghost use Rattle.lane.specs.Phases.{begin_step, breaks_off, check_step, end_step, read_step, too_long, write_step};
ghost use Rattle.lane.specs.State.{base, stale_in};

use super::forms::{
    amount_at, breaking_off, committing, giving_up, going, handing, restarting, staying,
    taking_write,
};
use super::ways::first_of_way;
use lane::{Answer, Effect, LogChange, MOST_READS, MOST_WRITES, Phase, Step, Way};

// Whether the mark of the cell is greater than the attempt's start.
pub fn is_stale(marks: &[u32], start: u32, cell: u32) -> bool
    ensures { result ≡ stale_in marks.now start cell }
{
    !marks.is_empty() && start < marks[cell as usize % marks.len()]
}

// Starts an attempt, unless a pause stands.
pub fn begin(paused: bool, number: u32) -> Step
    ensures { result ≡ begin_step paused number }
{
    if paused {
        staying(Answer::Paused, Phase::Begin)
    } else {
        restarting(even_below(number), Effect::Unchanged, Phase::Run)
    }
}

// The number without its lowest bit.
fn even_below(number: u32) -> u32
    ensures { result ≡ base number }
{
    number - number % 2
}

// Hands the amount that the write log has for the cell, or loads the cell.
pub fn read(cells: &[i64], cell: u32, own: Option<i64>) -> Step
    ensures { result ≡ read_step cells.now cell own }
{
    match own {
        Some(amount) => handing(cell, amount, LogChange::Same, Phase::Run),
        None => going(Phase::Check {
            cell,
            loaded: amount_at(cells, cell),
        }),
    }
}

// Hands the amount that was loaded, if its mark is not stale and the read log has room. How the log stands, `known` and
// `count`, is no struct: two functions take it, each reads it once, and the caller would make the struct for that alone.
pub fn check(stale: bool, known: bool, count: u32, cell: u32, loaded: i64) -> Step
    ensures { result ≡ check_step stale known count cell loaded }
{
    logging(
        stale,
        !known && count >= MOST_READS,
        handing(cell, loaded, LogChange::Noted(cell), Phase::Run),
    )
}

// Takes a write into the write log, if the mark is not stale and the log has room.
pub fn write(stale: bool, known: bool, count: u32, cell: u32, amount: i64) -> Step
    ensures { result ≡ write_step stale known count cell amount }
{
    logging(
        stale,
        !known && count >= MOST_WRITES,
        taking_write(
            cell,
            amount,
            LogChange::Entered(cell, amount),
            Effect::Unchanged,
            Phase::Run,
        ),
    )
}

// Takes a step that logs its cell, unless the mark is stale or the log is full without the cell.
fn logging(stale: bool, full: bool, step: Step) -> Step
    ensures { result ≡ cond stale (breaks_off Unchanged) (cond full too_long step) }
{
    if stale {
        breaking_off(Effect::Unchanged)
    } else if full {
        giving_up()
    } else {
        step
    }
}

// Commits as of the start where nothing was written, and otherwise goes the way of the transaction.
pub fn end(number: u32, way: Way, start: u32, written: u32) -> Step
    ensures { result ≡ end_step number way start written }
{
    if written == 0 {
        committing(start, Effect::Unchanged, None)
    } else {
        first_of_way(number, way)
    }
}
