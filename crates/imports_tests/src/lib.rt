// Examples and tables for amounts, import texts and their listings. Expected values come from docs/FORMATS.md and docs/REFUSALS.md.
#![tactic(auto)]

#[cfg(test)]
mod amounts;
#[cfg(test)]
mod faults;
#[cfg(test)]
mod listed;
#[cfg(test)]
mod odd_bytes;
#[cfg(test)]
mod sizes;
#[cfg(test)]
mod texts;
