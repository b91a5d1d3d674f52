// Tables for the kinds of body: what each does alone, what it answers to wrong tellings, and which are refused. Expected values
// come from docs/BODIES.md and docs/REFUSALS.md.
#![tactic(auto)]

#[cfg(test)]
mod alone;
#[cfg(test)]
mod bookings;
#[cfg(test)]
mod calls;
#[cfg(test)]
mod eithers;
#[cfg(test)]
mod limits;
#[cfg(test)]
mod long;
#[cfg(test)]
mod refusals;
#[cfg(test)]
mod scripts;
#[cfg(test)]
mod tellings;
#[cfg(test)]
mod totals;
