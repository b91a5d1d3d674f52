// Logs: entries that tell their cell, over a lent stretch of a long list.
#![tactic(auto)]

mod amounts;
mod entry;
mod log;

pub use amounts::{cell_at, has, lookup, written_at};
pub use entry::Entry;
pub use log::{enter, find};
