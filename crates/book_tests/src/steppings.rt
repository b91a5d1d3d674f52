// When a step is not taken. The book is as it was, and so are the lists.
use super::plans::Turn::{Commits, GoesOn};
use super::plans::{FOUR, LENGTHS, SECOND_INTO_FIRST, Seat, Times, total, turns};
use super::shelf::{Lengths, Shelf, holds, lay, open_on, sits, step_on};
use body::Total;
use book::Book;
use journal::Record;
use journal::Record::{Change, Commit};
use lane::StepRefusal::{Idle, NoSeat};
use lane::{StepRefusal, Written};
use std::alloc::Global;
use std::process::Abort;
use std::test::Fail;

// Seat 1 puts what is in cell 1 into cell 0, in way 1. The other seats are idle.
fn twenty(book: &mut Book<Total>) -> Result<(), Fail> {
    sits(book, 1, 1, 6, total(SECOND_INTO_FIRST)?)
}

// A seat, and why it is not stepped.
struct Refused(Seat, StepRefusal);

const SEATS: &[Refused] = &[
    Refused(Seat(9), NoSeat),
    Refused(Seat(4_294_967_295), NoSeat),
    Refused(Seat(0), Idle),
    Refused(Seat(2), Idle),
    Refused(Seat(8), Idle),
];

fn refuse_seats(rt: &impl Abort, book: &mut Book<Total>, lists: &mut Shelf) {
    for Refused(seat, refusal) in SEATS {
        assert_eq!(rt; step_on(book, lists, seat.0), Err(*refusal));
    }
}

// Lists of other lengths: cells, and the others.
struct Others(&'static [i64], Lengths);

const OTHERS: &[Others] = &[
    Others(&[10, 20, 30], LENGTHS),
    Others(&[10, 20, 30, 40, 50], LENGTHS),
    Others(&[], LENGTHS),
    Others(
        &FOUR,
        Lengths {
            marks: 1,
            ..LENGTHS
        },
    ),
    Others(
        &FOUR,
        Lengths {
            marks: 3,
            ..LENGTHS
        },
    ),
    Others(
        &FOUR,
        Lengths {
            reads: 511,
            ..LENGTHS
        },
    ),
    Others(
        &FOUR,
        Lengths {
            reads: 513,
            ..LENGTHS
        },
    ),
    Others(
        &FOUR,
        Lengths {
            writes: 255,
            ..LENGTHS
        },
    ),
    Others(
        &FOUR,
        Lengths {
            writes: 257,
            ..LENGTHS
        },
    ),
    Others(
        &FOUR,
        Lengths {
            journal: 15,
            ..LENGTHS
        },
    ),
    Others(
        &FOUR,
        Lengths {
            journal: 17,
            ..LENGTHS
        },
    ),
];

// A seat that there is not, or that is idle, is refused as such whatever the lists are.
fn refuse_lists(rt: &impl Abort, heap: Global, book: &mut Book<Total>) -> Result<(), Fail> {
    for Others(cells, lengths) in OTHERS {
        let mut lists = lay(heap, cells, *lengths)?;
        assert_eq!(rt; step_on(book, &mut lists, 1), Err(StepRefusal::Lists));
        refuse_seats(rt, book, &mut lists);
    }
    Ok(())
}

// Between its steps, each other step is refused, and the transaction comes to its end all the same.
fn between(
    rt: &impl Abort,
    heap: Global,
    book: &mut Book<Total>,
    lists: &mut Shelf,
) -> Result<(), Fail> {
    twenty(book)?;
    for _ in 0..10 {
        refuse_seats(rt, book, lists);
        refuse_lists(rt, heap, book)?;
        turns(
            rt,
            book,
            lists,
            &[GoesOn(Seat(1), Times(1))],
            "between refusals",
        )?;
    }
    turns(rt, book, lists, &[Commits(Seat(1), 1)], "between refusals")?;
    assert_eq!(rt; step_on(book, lists, 1), Err(Idle));
    holds(
        rt,
        lists,
        &[20, 20, 30, 40],
        &[1, 0],
        DONE,
        "between refusals",
    );
    Ok(())
}

#[test]
fn refusals(rt: HostRuntime) -> Result<(), Fail> {
    let heap = rt.alloc();
    let mut lists = lay(heap, &FOUR, LENGTHS)?;
    let mut book: Book<Total> = open_on(&mut lists, 1, 8, 0)?;
    between(&rt, heap, &mut book, &mut lists)
}

const DONE: &[Record] = &[
    Change {
        number: 1,
        cell: 0,
        amount: 20,
    },
    Commit {
        number: 1,
        seat: 1,
        kind: 2,
        tag: 6,
        count: 1,
    },
];

// The first entry of the write logs is given another cell, and back its own.
fn misled(rt: &impl Abort, book: &mut Book<Total>, lists: &mut Shelf, cell: u32) {
    assert!(rt; lists.writes.len() > 0);
    lists.writes[0] = Written { cell, amount: 20 };
    assert_eq!(rt; step_on(book, lists, 1), Err(StepRefusal::Lists));
    assert!(rt; lists.writes.len() > 0);
    lists.writes[0] = Written {
        cell: 0,
        amount: 20,
    };
}

// After seven steps it is to validate its entry, then to mark it, then to set its cell.
fn mislead(rt: &impl Abort, book: &mut Book<Total>, lists: &mut Shelf) -> Result<(), Fail> {
    twenty(book)?;
    turns(rt, book, lists, &[GoesOn(Seat(1), Times(7))], "misled")?;
    for cell in [4, 5, 4_294_967_295] {
        misled(rt, book, lists, cell);
        turns(rt, book, lists, &[GoesOn(Seat(1), Times(1))], "misled")?;
    }
    turns(rt, book, lists, &[Commits(Seat(1), 1)], "misled")?;
    holds(rt, lists, &[20, 20, 30, 40], &[1, 0], DONE, "misled");
    Ok(())
}

#[test]
fn entries_of_no_cell(rt: HostRuntime) -> Result<(), Fail> {
    let heap = rt.alloc();
    let mut lists = lay(heap, &FOUR, LENGTHS)?;
    let mut book: Book<Total> = open_on(&mut lists, 1, 8, 0)?;
    mislead(&rt, &mut book, &mut lists)
}
