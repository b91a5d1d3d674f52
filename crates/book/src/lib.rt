// The book: cells of money, one master and up to eight helpers.
#![tactic(auto)]

mod acting;
mod book;
mod calls;
mod chair;
mod changing;
mod common;
mod deciding;
mod desk;
mod limits;
mod lists;
mod logging;
mod opening;
mod questions;
mod readiness;
mod ready;
mod recording;
mod refused;
mod seating;
mod sight;
mod status;
mod telling;
mod ticket;

pub use book::Book;
pub use lists::Lists;
pub use refused::SeatRefused;
pub use status::Status;
pub use ticket::{ResumeRefusal, Ticket};
