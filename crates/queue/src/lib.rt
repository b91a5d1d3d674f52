// The queue of helpers that joined and have not left, oldest first.
#![tactic(auto)]

mod line;
mod turns;

pub use line::Queue;
