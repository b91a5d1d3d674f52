// Books an import text alone in a new book, and gives the lines of the book's journal, or one line that names the refusal.
#![tactic(auto)]

mod booking;
mod posting;
mod printing;
mod refusal;

pub use posting::post;
