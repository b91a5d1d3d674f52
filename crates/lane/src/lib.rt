// The lane: what a step of a seat is, what history tells of steps, and the law of runs.

#![tactic(auto)]

mod answer;
mod limits;
mod phase;
mod refusal;
mod seated;
mod sizes;
mod step;
mod told;
mod written;

pub use answer::Answer;
pub use limits::{MOST_READS, MOST_WRITES};
pub use phase::{Phase, Way};
pub use refusal::{OpenRefusal, PauseRefusal, SeatRefusal, StepRefusal};
pub use seated::Seated;
pub use sizes::Sizes;
pub use step::{Effect, LogChange, Step};
pub use told::Told;
pub use written::Written;
