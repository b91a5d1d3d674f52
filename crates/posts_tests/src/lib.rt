// Texts and what is posted for each. Expected values come from docs/FORMATS.md and docs/REFUSALS.md.
#![tactic(auto)]

#[cfg(test)]
mod posted;
