// The steps of seats, one function a phase. Each answers what the step does, and changes nothing itself. Each takes, as plain
// values, what the machine's definition of its phase takes, so that its contract is one equation; a struct of those that go
// together, as a number and a way, would be made by one caller and taken apart again at once.
#![tactic(auto)]

mod forms;
mod helper;
mod master;
mod ways;

pub use helper::{begin, check, end, is_stale, read, write};
pub use master::{master_end, master_look, master_read, master_write, put, reserve, take};
pub use ways::{
    leave, let_go, look, mark, prevalidate, quit, release, set_cell, swap, validate, wait,
};
