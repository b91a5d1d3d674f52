// Tables for the lines of journal records and their refusals. Expected values come from docs/FORMATS.md and docs/REFUSALS.md.
#![tactic(auto)]

#[cfg(test)]
mod buffers;
#[cfg(test)]
mod forms;
#[cfg(test)]
mod places;
#[cfg(test)]
mod records;
#[cfg(test)]
mod refusals;
