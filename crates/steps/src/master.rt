// The master's steps.
ghost use Rattle.std.specs.Prelude.{◌≡◌};
ghost use Rattle.lane.specs.Phases.{master_end_step, master_look_step, master_read_step, master_write_step, put_step, reserve_step, take_step};

use super::forms::{
    amount_at, committing, doing, going, handing, restarting, staying, taking_write,
};
use lane::{Answer, Effect, LogChange, Phase, Step};

// Sets the flag, unless a pause stands.
pub fn reserve(paused: bool) -> Step
    ensures { result ≡ reserve_step paused }
{
    if paused {
        staying(Answer::Paused, Phase::Reserve)
    } else {
        doing(Effect::FlagSet, Phase::MasterLook)
    }
}

// Waits until the lane is free.
pub fn master_look(number: u32) -> Step
    ensures { result ≡ master_look_step number }
{
    if number % 2 == 1 {
        staying(Answer::Waiting, Phase::MasterLook)
    } else {
        going(Phase::Take)
    }
}

// Takes the lane.
pub fn take(number: u32) -> Step
    ensures { result ≡ take_step number }
{
    restarting(number, Effect::LaneTaken, Phase::MasterRun)
}

// Hands the amount in the cell that the body asks for.
pub fn master_read(cells: &[i64], cell: u32) -> Step
    ensures { result ≡ master_read_step cells.now cell }
{
    handing(
        cell,
        amount_at(cells, cell),
        LogChange::Same,
        Phase::MasterRun,
    )
}

// Sets the mark of the cell that the body writes. The cell is set in the step after.
pub fn master_write(cell: u32, amount: i64) -> Step
    ensures { result ≡ master_write_step cell amount }
{
    doing(Effect::MarkSet(cell), Phase::Put { cell, amount })
}

// Commits, and gives the lane back.
pub fn master_end(number: u32) -> Step
    ensures { result ≡ master_end_step number }
{
    committing(number, Effect::NumberRaised, None)
}

// Sets the cell.
pub fn put(cell: u32, amount: i64) -> Step
    ensures { result ≡ put_step cell amount }
{
    taking_write(
        cell,
        amount,
        LogChange::Same,
        Effect::CellSet(cell, amount),
        Phase::MasterRun,
    )
}
