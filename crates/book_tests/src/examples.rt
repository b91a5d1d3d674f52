// The worked examples of docs/MACHINE.md. Those of 1 to 5 are run with totals of one cell, which read it and put its amount into
// another: a helper's takes three steps more than a put alone, two for the read and one to validate it.
use super::plans::Turn::{BreaksOff, Commits, GivesUp, GoesOn, Waits};
use super::plans::{
    Chair, FIRST_INTO_LAST, FIRST_INTO_SECOND, Plan, SECOND_INTO_FIRST, SECOND_INTO_THIRD, Seat,
    THIRD_INTO_SECOND, Tag, Times, Way, play_all, turns,
};
use super::shelf::{Lengths, Shelf, filled, holds, lay, open_on, sits, step_on};
use body::{Body, Import, Total};
use book::Book;
use imports::check as check_text;
use journal::Record;
use journal::Record::{Change, Commit};
use lane::StepRefusal;
use money::{Code, read_amount};
use std::alloc::Global;
use std::process::Abort;
use std::test::Fail;

const MASTER_DONE: Record = Commit {
    number: 1,
    seat: 0,
    kind: 2,
    tag: 5,
    count: 1,
};

const HELPER_DONE: Record = Commit {
    number: 1,
    seat: 1,
    kind: 2,
    tag: 6,
    count: 1,
};

const HELPER_LATER: Record = Commit {
    number: 3,
    seat: 1,
    kind: 2,
    tag: 6,
    count: 1,
};

const MASTER_LATER: Record = Commit {
    number: 3,
    seat: 0,
    kind: 2,
    tag: 5,
    count: 1,
};

const TEN_SECOND: Record = Change {
    number: 1,
    cell: 1,
    amount: 10,
};

const TWENTY_FIRST: Record = Change {
    number: 1,
    cell: 0,
    amount: 20,
};

const TWENTY_THIRD: Record = Change {
    number: 1,
    cell: 2,
    amount: 20,
};

const TWENTY_LAST: Record = Change {
    number: 3,
    cell: 3,
    amount: 20,
};

const THIRTY_SECOND: Record = Change {
    number: 3,
    cell: 1,
    amount: 30,
};

const TEN_LAST: Record = Change {
    number: 3,
    cell: 3,
    amount: 10,
};

const PLANS: &[Plan] = &[
    Plan {
        words: "1: the master",
        chairs: &[
            Chair(Seat(0), Way(0), Tag(5), FIRST_INTO_SECOND),
            Chair(Seat(1), Way(1), Tag(6), FIRST_INTO_LAST),
        ],
        turns: &[
            GoesOn(Seat(0), Times(6)),
            Commits(Seat(0), 1),
            GoesOn(Seat(1), Times(10)),
            Commits(Seat(1), 3),
        ],
        cells: &[10, 10, 30, 10],
        marks: &[0, 3],
        records: &[TEN_SECOND, MASTER_DONE, TEN_LAST, HELPER_LATER],
    },
    Plan {
        words: "1: the mark before the cell",
        chairs: &[Chair(Seat(0), Way(0), Tag(5), FIRST_INTO_SECOND)],
        turns: &[GoesOn(Seat(0), Times(5))],
        cells: &[10, 20, 30, 40],
        marks: &[0, 1],
        records: &[],
    },
    Plan {
        words: "2: a helper meets the master",
        chairs: &[
            Chair(Seat(0), Way(0), Tag(5), SECOND_INTO_FIRST),
            Chair(Seat(1), Way(1), Tag(6), FIRST_INTO_LAST),
        ],
        turns: &[
            GoesOn(Seat(1), Times(2)),
            GoesOn(Seat(0), Times(6)),
            Commits(Seat(0), 1),
            BreaksOff(Seat(1)),
            GoesOn(Seat(1), Times(10)),
            Commits(Seat(1), 3),
        ],
        cells: &[20, 20, 30, 20],
        marks: &[1, 3],
        records: &[TWENTY_FIRST, MASTER_DONE, TWENTY_LAST, HELPER_LATER],
    },
    Plan {
        words: "3: a shared mark",
        chairs: &[
            Chair(Seat(0), Way(0), Tag(5), SECOND_INTO_THIRD),
            Chair(Seat(1), Way(1), Tag(6), FIRST_INTO_LAST),
        ],
        turns: &[
            GoesOn(Seat(1), Times(2)),
            GoesOn(Seat(0), Times(6)),
            Commits(Seat(0), 1),
            BreaksOff(Seat(1)),
        ],
        cells: &[10, 20, 20, 40],
        marks: &[1, 0],
        records: &[TWENTY_THIRD, MASTER_DONE],
    },
    Plan {
        words: "3: another mark",
        chairs: &[
            Chair(Seat(0), Way(0), Tag(5), FIRST_INTO_SECOND),
            Chair(Seat(1), Way(1), Tag(6), FIRST_INTO_LAST),
        ],
        turns: &[
            GoesOn(Seat(1), Times(2)),
            GoesOn(Seat(0), Times(6)),
            Commits(Seat(0), 1),
            GoesOn(Seat(1), Times(1)),
        ],
        cells: &[10, 10, 30, 40],
        marks: &[0, 1],
        records: &[TEN_SECOND, MASTER_DONE],
    },
    Plan {
        words: "4: the flag is not in the mark",
        chairs: &[
            Chair(Seat(0), Way(0), Tag(5), THIRD_INTO_SECOND),
            Chair(Seat(1), Way(1), Tag(6), SECOND_INTO_FIRST),
        ],
        turns: &[
            GoesOn(Seat(1), Times(8)),
            GoesOn(Seat(0), Times(1)),
            GoesOn(Seat(1), Times(1)),
        ],
        cells: &[10, 20, 30, 40],
        marks: &[1, 0],
        records: &[],
    },
    Plan {
        words: "4: to the end",
        chairs: &[
            Chair(Seat(0), Way(0), Tag(5), THIRD_INTO_SECOND),
            Chair(Seat(1), Way(1), Tag(6), SECOND_INTO_FIRST),
        ],
        turns: &[
            GoesOn(Seat(1), Times(8)),
            GoesOn(Seat(0), Times(1)),
            GoesOn(Seat(1), Times(1)),
            Waits(Seat(0), Times(1)),
            GoesOn(Seat(1), Times(1)),
            Commits(Seat(1), 1),
            GoesOn(Seat(0), Times(5)),
            Commits(Seat(0), 3),
        ],
        cells: &[20, 30, 30, 40],
        marks: &[1, 3],
        records: &[TWENTY_FIRST, HELPER_DONE, THIRTY_SECOND, MASTER_LATER],
    },
    Plan {
        words: "5: a helper, way 1",
        chairs: &[Chair(Seat(1), Way(1), Tag(6), SECOND_INTO_FIRST)],
        turns: &[GoesOn(Seat(1), Times(10)), Commits(Seat(1), 1)],
        cells: &[20, 20, 30, 40],
        marks: &[1, 0],
        records: &[TWENTY_FIRST, HELPER_DONE],
    },
];

#[test]
fn examples_1_to_5(rt: HostRuntime) -> Result<(), Fail> {
    play_all(&rt, rt.alloc(), PLANS)
}

// Step 131 is the first that does not go on. The seat is idle then.
fn too_long(rt: &impl Abort, book: &mut Book<Total>, lists: &mut Shelf) -> Result<(), Fail> {
    sits(book, 1, 1, 6, Total::new(0, 64, 0)?)?;
    turns(
        rt,
        book,
        lists,
        &[GoesOn(Seat(1), Times(130)), GivesUp(Seat(1))],
        "6: too long",
    )?;
    assert_eq!(rt; step_on(book, lists, 1), Err(StepRefusal::Idle));
    Ok(())
}

// A helper of this length needs 33 records.
const ROOM: Lengths = Lengths {
    marks: 2,
    reads: 512,
    writes: 256,
    journal: 33,
};

#[test]
fn example_6(rt: HostRuntime) -> Result<(), Fail> {
    let heap = rt.alloc();
    let cells = filled(heap, 0, 65)?;
    let mut lists = lay(heap, cells.as_slice(), ROOM)?;
    let mut book: Book<Total> = open_on(&mut lists, 1, 8, 0)?;
    too_long(&rt, &mut book, &mut lists)?;
    holds(&rt, &lists, cells.as_slice(), &[0, 0], &[], "6: too long");
    Ok(())
}

// A field in DKK, and the amount or the number of its fault. The example tells the number, so that it is what is tested.
const AMOUNTS: [(&str, Result<i64, u32>); 4] = [
    ("-12.50", Ok(-1250)),
    ("-0.00", Err(66)),
    ("10000000000000.00", Ok(1_000_000_000_000_000)),
    ("10000000000000.01", Err(67)),
];

#[test]
fn examples_7_and_8(rt: HostRuntime) -> Result<(), Fail> {
    let code = Code::new("DKK".as_bytes()).ok_or("no code")?;
    for (field, expected) in AMOUNTS {
        let answer = read_amount(code, field.as_bytes()).map_err(|fault| fault.number());
        assert_eq!(rt; answer, expected, "{}", field);
    }
    Ok(())
}

fn unposted(heap: Global) -> Result<Import, Fail> {
    let text = "H\tDKK\nP\t0\t0.01\n".as_bytes().to_vec(heap)?;
    let checked = check_text(text).map_err(|_| Fail::new("the text is refused"))?;
    Ok(Import::new(checked))
}

// Told what the cell holds, the import counts its line.
#[test]
fn example_9_alone(rt: HostRuntime) -> Result<(), Fail> {
    let mut import = unposted(rt.alloc())?;
    import.tell(1_000_000_000_000_000);
    assert_eq!(rt; import.unposted(), 1);
    Ok(())
}
