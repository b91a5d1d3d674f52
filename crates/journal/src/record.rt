// What a journal keeps: each change of a cell, and each commit.

#[derive(Clone, Copy, Debug, PartialEq, Eq)]
pub enum Record {
    // A commit under `number` gives the cell this amount.
    Change {
        number: u32,
        cell: u32,
        amount: i64,
    },
    // A transaction commits, with so many changes recorded before it. Its kind is a number, since anyone may add a kind of body,
    // and the line of a record has its number.
    Commit {
        number: u32,
        seat: u32,
        kind: u32,
        tag: u32,
        count: u32,
    },
}
