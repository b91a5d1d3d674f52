// Plans: totals are seated in a book of four cells and two marks, and stepped in some order of turns.
// Handle and heap go side by side: a helper may not take the runtime, and a bound for both would make its vectors generic.
use super::shelf::{Lengths, Shelf, holds, lay, open_on, sits, step_on};
use body::{Body, Total};
use book::Book;
use journal::Record;
use lane::Answer;
use std::alloc::Global;
use std::process::Abort;
use std::test::Fail;

#[derive(Clone, Copy)]
pub struct Seat(pub u32);

// A way by its number.
#[derive(Clone, Copy)]
pub struct Way(pub u32);

#[derive(Clone, Copy)]
pub struct Tag(pub u32);

#[derive(Clone, Copy)]
pub struct Times(pub u32);

// A total, by its first and last cell and its target.
#[derive(Clone, Copy)]
pub struct Sum {
    pub first: u32,
    pub last: u32,
    pub target: u32,
}

pub const FIRST_INTO_SECOND: Sum = Sum {
    first: 0,
    last: 0,
    target: 1,
};

pub const FIRST_INTO_THIRD: Sum = Sum {
    first: 0,
    last: 0,
    target: 2,
};

pub const FIRST_INTO_LAST: Sum = Sum {
    first: 0,
    last: 0,
    target: 3,
};

pub const SECOND_INTO_FIRST: Sum = Sum {
    first: 1,
    last: 1,
    target: 0,
};

pub const SECOND_INTO_THIRD: Sum = Sum {
    first: 1,
    last: 1,
    target: 2,
};

pub const THIRD_INTO_SECOND: Sum = Sum {
    first: 2,
    last: 2,
    target: 1,
};

// Who is seated, and what is put where.
#[derive(Clone, Copy)]
pub struct Chair(pub Seat, pub Way, pub Tag, pub Sum);

// A seat takes so many steps, and each of them answers so. A commit is one step, and tells its number.
#[derive(Clone, Copy)]
pub enum Turn {
    GoesOn(Seat, Times),
    Waits(Seat, Times),
    BreaksOff(Seat),
    GivesUp(Seat),
    Commits(Seat, u32),
}

impl Turn {
    fn seat(self) -> u32 {
        match self {
            Turn::GoesOn(seat, _) | Turn::Waits(seat, _) => seat.0,
            Turn::BreaksOff(seat) | Turn::GivesUp(seat) | Turn::Commits(seat, _) => seat.0,
        }
    }

    fn times(self) -> u32 {
        match self {
            Turn::GoesOn(_, times) | Turn::Waits(_, times) => times.0,
            _ => 1,
        }
    }

    fn answer(self) -> Answer {
        match self {
            Turn::GoesOn(_, _) => Answer::GoneOn,
            Turn::Waits(_, _) => Answer::Waiting,
            Turn::BreaksOff(_) => Answer::BrokenOff,
            Turn::GivesUp(_) => Answer::TooLong,
            Turn::Commits(_, number) => Answer::Committed(number),
        }
    }
}

#[derive(Clone, Copy)]
pub struct Plan {
    pub words: &'static str,
    pub chairs: &'static [Chair],
    pub turns: &'static [Turn],
    // What is left: the cells, the marks and the records.
    pub cells: &'static [i64],
    pub marks: &'static [u32],
    pub records: &'static [Record],
}

pub const FOUR: [i64; 4] = [10, 20, 30, 40];

// Two marks, logs for eight helpers, and sixteen records.
pub const LENGTHS: Lengths = Lengths {
    marks: 2,
    reads: 512,
    writes: 256,
    journal: 16,
};

// A failure tells by these words which run it is.
pub(crate) fn turns<B: Body + Drop>(
    rt: &impl Abort,
    book: &mut Book<B>,
    shelf: &mut Shelf,
    table: &[Turn],
    words: &str,
) -> Result<(), Fail> {
    for turn in table {
        for _ in 0..turn.times() {
            assert_eq!(rt;
                step_on(book, shelf, turn.seat())?,
                turn.answer(),
                "{words}"
            );
        }
    }
    Ok(())
}

pub(crate) fn total(sum: Sum) -> Result<Total, Fail> {
    Ok(Total::new(sum.first, sum.last, sum.target)?)
}

fn sit_all(book: &mut Book<Total>, chairs: &[Chair]) -> Result<(), Fail> {
    for chair in chairs {
        let Chair(seat, way, tag, sum) = *chair;
        sits(book, seat.0, way.0, tag.0, total(sum)?)?;
    }
    Ok(())
}

fn play(rt: &impl Abort, heap: Global, plan: &Plan) -> Result<(), Fail> {
    let mut lists = lay(heap, &FOUR, LENGTHS)?;
    let mut book: Book<Total> = open_on(&mut lists, 1, 8, 0)?;
    sit_all(&mut book, plan.chairs)?;
    turns(rt, &mut book, &mut lists, plan.turns, plan.words)?;
    holds(rt, &lists, plan.cells, plan.marks, plan.records, plan.words);
    Ok(())
}

pub(crate) fn play_all(rt: &impl Abort, heap: Global, plans: &[Plan]) -> Result<(), Fail> {
    for plan in plans {
        play(rt, heap, plan)?;
    }
    Ok(())
}
