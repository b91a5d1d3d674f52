// Where a line is refused, and with which number.
use super::buffers::{refuses, writes};
use super::records::{change, commit};
use journal::LineRefusal::{NoPlace, NoRecord, NoSpace};
use journal::{LineRefusal, Record, line};
use std::alloc::Global;
use std::process::Abort;
use std::test::Fail;

// Lines of 8 and of 12 bytes.
const JOURNAL: [Record; 2] = [
    Record::Change {
        number: 1,
        cell: 2,
        amount: 3,
    },
    Record::Commit {
        number: 1,
        seat: 2,
        kind: 3,
        tag: 4,
        count: 5,
    },
];

// The greatest number of a record or of a place.
const MOST: usize = usize::MAX;

// Record, size of the buffer, place: a row is a tuple, since a struct's literal with names would take five lines.
fn refuse_each(
    rt: &impl Abort,
    heap: Global,
    journal: &[Record],
    table: &[(usize, usize, usize)],
    refusal: LineRefusal,
) -> Result<(), Fail> {
    for (i, size, place) in table.iter().copied() {
        refuses(rt, heap, journal, i, size, place, refusal)?;
    }
    Ok(())
}

#[test]
fn numbers(rt: HostRuntime) {
    assert_eq!(rt; NoRecord.number(), 50);
    assert_eq!(rt; NoPlace.number(), 51);
    assert_eq!(rt; NoSpace.number(), 52);
}

#[test]
fn no_record(rt: HostRuntime) -> Result<(), Fail> {
    let heap = rt.alloc();
    let table = [
        (2, 100, 0),
        (3, 100, 0),
        (MOST, 100, 0),
        // With a place beyond the end, and with too little space.
        (2, 100, 101),
        (2, 100, MOST),
        (2, 100, 100),
        (2, 0, 0),
        (2, 0, 1),
        (MOST, 0, MOST),
    ];
    refuse_each(&rt, heap, &JOURNAL, &table, NoRecord)?;
    let none: [Record; 0] = [];
    let table = [
        (0, 100, 0),
        (0, 100, 101),
        (0, 0, 0),
        (0, 0, 1),
        (MOST, 100, 0),
    ];
    refuse_each(&rt, heap, &none, &table, NoRecord)
}

#[test]
fn no_place(rt: HostRuntime) -> Result<(), Fail> {
    let table = [
        (0, 100, 101),
        (1, 100, 101),
        (0, 100, MOST),
        (1, 100, MOST),
        (0, 0, 1),
        (1, 0, MOST),
    ];
    refuse_each(&rt, rt.alloc(), &JOURNAL, &table, NoPlace)
}

#[test]
fn no_space(rt: HostRuntime) -> Result<(), Fail> {
    let heap = rt.alloc();
    let table = [
        // The place is the buffer's end.
        (0, 100, 100),
        (1, 100, 100),
        (0, 0, 0),
        (1, 0, 0),
        // One byte is left, and one is wanting.
        (0, 100, 99),
        (0, 100, 93),
        (1, 100, 89),
        (0, 7, 0),
        (1, 11, 0),
    ];
    refuse_each(&rt, heap, &JOURNAL, &table, NoSpace)?;
    // Beside these, the lines that just fit.
    writes(&rt, heap, &JOURNAL, 0, "W\t1\t2\t3\n", 92, 0)?;
    writes(&rt, heap, &JOURNAL, 1, "C\t1\t2\t3\t4\t5\n", 88, 0)?;
    writes(&rt, heap, &JOURNAL, 0, "W\t1\t2\t3\n", 0, 0)?;
    writes(&rt, heap, &JOURNAL, 1, "C\t1\t2\t3\t4\t5\n", 0, 0)
}

// A buffer that wants one byte, for numbers of several lengths.
#[test]
fn one_byte_short(rt: HostRuntime) -> Result<(), Fail> {
    let heap = rt.alloc();
    let table = [
        (change(0, 0, 0), 7),
        (change(9, 10, -1), 9),
        (change(4_294_967_295, 0, 10), 17),
        (change(1, 2, 1_000_000_000_000_000), 22),
        (change(1, 2, -1_000_000_000_000_000), 23),
        (change(1, 2, 9_223_372_036_854_775_807), 25),
        (change(1, 2, -9_223_372_036_854_775_808), 26),
        (
            commit(
                4_294_967_295,
                4_294_967_295,
                4_294_967_295,
                4_294_967_295,
                4_294_967_295,
            ),
            56,
        ),
    ];
    for (record, size) in table {
        refuses(&rt, heap, &[record], 0, size, 0, NoSpace)?;
    }
    Ok(())
}

// Lines fill a buffer; each refusal after them leaves them as they are.
#[test]
fn full_buffer(rt: HostRuntime) -> Result<(), Fail> {
    let mut buffer = *b"....................";
    let place = line(&JOURNAL, 1, &mut buffer, 0)?;
    assert_eq!(rt; place, 12);
    let place = line(&JOURNAL, 0, &mut buffer, place)?;
    assert_eq!(rt; place, 20);
    let full = *b"C\t1\t2\t3\t4\t5\nW\t1\t2\t3\n";
    assert!(rt; buffer == full);
    assert_eq!(rt; line(&JOURNAL, 0, &mut buffer, 20), Err(NoSpace));
    assert_eq!(rt; line(&JOURNAL, 0, &mut buffer, 13), Err(NoSpace));
    assert_eq!(rt; line(&JOURNAL, 1, &mut buffer, 9), Err(NoSpace));
    assert_eq!(rt; line(&JOURNAL, 0, &mut buffer, 21), Err(NoPlace));
    assert_eq!(rt; line(&JOURNAL, 2, &mut buffer, 0), Err(NoRecord));
    assert!(rt; buffer == full);
    Ok(())
}
