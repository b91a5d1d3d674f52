// Makes totals and scripts, or refuses to.
ghost use Rattle.std.specs.Prelude.{◌≡◌, MatchOption, ◌<◌, ◌≤◌};
ghost use Rattle.std.specs.List.{AllByRecursion};
ghost use Rattle.body.specs.Makers.{MakesScript, MakesTotal, SoundStep, script_refusal_number, step_reach, steps_reach, top_cell, total_refusal_number};

use super::steps::{Script, ScriptRefusal, ScriptStep};
use super::sum::{Total, TotalRefusal, TotalStep};
use imports::TOP_CELL;
use money::is_within;

const MOST_STEPS: usize = 16;

impl Total {
    // A total of the cells `first` to `last`, to be written to `target`.
    pub fn new(first: u32, last: u32, target: u32) -> Result<Total, TotalRefusal>
        ensures { MakesTotal first last target result }
    {
        let first = cell_of(first).ok_or(TotalRefusal)?;
        let last = cell_of(last).ok_or(TotalRefusal)?;
        let target = cell_of(target).ok_or(TotalRefusal)?;
        if first > last {
            return Err(TotalRefusal);
        }
        Ok(Total {
            first,
            last,
            target,
            step: TotalStep::Read { at: first, sum: 0 },
        })
    }
}

// The cell of this number, if there is one.
fn cell_of(number: u32) -> Option<u16>
    ensures { MatchOption result (top_cell < number) (λ cell. (cell ≡ number) × (number ≤ top_cell)) }
{
    u16::try_from(number).ok().filter(|cell| *cell <= TOP_CELL)
}

impl TotalRefusal {
    pub fn number(self) -> u32
        ensures { result ≡ total_refusal_number self }
    {
        70
    }
}

impl Script {
    pub fn new(steps: Vec<ScriptStep>) -> Result<Script, ScriptRefusal>
        ensures { MakesScript steps.items result }
    {
        if steps.len() > MOST_STEPS {
            return Err(ScriptRefusal::TooMany);
        }
        let reach = reach_of_steps(&steps).ok_or(ScriptRefusal::BadStep)?;
        Ok(Script {
            steps,
            reach,
            done: 0,
            carried: 0,
        })
    }
}

impl ScriptRefusal {
    pub fn number(self) -> u32
        ensures { result ≡ script_refusal_number self }
    {
        self as u32
    }
}

// The reach of some steps, if each is sound. A `try_fold` was tried in place of the `for`: its `returns`, which has to know the
// steps behind a `None`, stayed open.
fn reach_of_steps(steps: &[ScriptStep]) -> Option<u32>
    ensures { MatchOption result (AllByRecursion SoundStep steps.now → ⊥) (λ n. AllByRecursion SoundStep steps.now × (n ≡ steps_reach steps.now)) }
{
    let mut reach = 0;
    for step in steps {
        reach = reach.max(step.reach()?);
    }
    Some(reach)
}

impl ScriptStep {
    // The cell that it names, plus 1, if the step is sound.
    fn reach(self) -> Option<u32>
        ensures { MatchOption result (SoundStep self → ⊥) (λ n. SoundStep self × (n ≡ step_reach self)) }
    {
        let top = u32::from(TOP_CELL);
        match self {
            ScriptStep::Read { cell } | ScriptStep::Carry { cell } if cell <= top => Some(cell + 1),
            ScriptStep::Put { cell, amount } if cell <= top && is_within(amount) => Some(cell + 1),
            _ => None,
        }
    }
}
