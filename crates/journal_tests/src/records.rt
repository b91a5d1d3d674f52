// Records in few words, for the tables.
use journal::Record;

pub(crate) fn change(number: u32, cell: u32, amount: i64) -> Record {
    Record::Change {
        number,
        cell,
        amount,
    }
}

// A kind is a number, as a record has it.
pub(crate) fn commit(number: u32, seat: u32, kind: u32, tag: u32, count: u32) -> Record {
    Record::Commit {
        number,
        seat,
        kind,
        tag,
        count,
    }
}
