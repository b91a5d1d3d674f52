// A book is run: the worked examples, the refusals of its calls, and helpers that queue. Expected values come from
// docs/MACHINE.md and docs/REFUSALS.md.
#![tactic(auto)]

#[cfg(test)]
mod examples;
#[cfg(test)]
mod openings;
#[cfg(test)]
mod plans;
#[cfg(test)]
mod queues;
#[cfg(test)]
mod seatings;
#[cfg(test)]
mod shelf;
#[cfg(test)]
mod steppings;
