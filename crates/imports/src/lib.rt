// Import text: the check that admits it or names a faulty line, and the postings that an admitted text stands for.
#![tactic(auto)]

mod checked;
mod checking;
mod cursor;
mod fault;
mod line;
mod posting;
mod postings;
mod read;
mod survey;
mod totals;

pub use checked::Checked;
pub use checking::{MOST_BYTES, check};
pub use cursor::Postings;
pub use fault::{FaultyLine, ImportFault, LineFault};
pub use line::Line;
pub use posting::Posting;
pub use read::{HEADER_BYTES, TOP_CELL};
pub use totals::Totals;
