// What a step of a seat is decided by: what the seats share, and the transaction of the seat with its logs.
ghost use Rattle.std.specs.Prelude.{◌≤◌, length};

use super::common::Common;
use lane::{Seated, Written};

#[derive(Drop)]
pub(crate) struct Sight<'a> {
    pub common: &'a Common,
    pub cells: &'a [i64],
    pub marks: &'a [u32],
    pub seat: u32,
    pub seated: Seated,
    pub reads: &'a [u32],
    pub writes: &'a [Written],
    ghost few_reads: { length reads.now ≤ 64 },
    ghost few_writes: { length writes.now ≤ 32 },
}
