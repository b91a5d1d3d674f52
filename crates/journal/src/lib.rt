// The journal: its records, and the line of text that stands for each.

#![tactic(auto)]

mod lines;
mod record;
mod refusal;
mod text;

pub use lines::line;
pub use record::Record;
pub use refusal::LineRefusal;
pub use text::MOST_BYTES;
