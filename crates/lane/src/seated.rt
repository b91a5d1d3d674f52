// What a book knows of a seated transaction, beside its body and what its logs hold.
use super::phase::{Phase, Way};

#[derive(Clone, Copy)]
pub struct Seated {
    pub phase: Phase,
    // The master's has no part in its steps.
    pub way: Way,
    pub tag: u32,
    // The number that the attempt reads as of.
    pub start: u32,
    // How many entries of the read log and of the write log are used.
    pub reads: u32,
    pub writes: u32,
    // How many changes it has recorded.
    pub made: u32,
    // How many records are kept for it.
    pub keeps: u32,
}
