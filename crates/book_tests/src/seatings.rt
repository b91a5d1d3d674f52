// When a body is not seated. It comes back, and the book is as it was.
use super::plans::Turn::{Commits, GoesOn};
use super::plans::{Seat, Sum, Times, Way, total, turns};
use super::shelf::{Lengths, lay, open_on};
use body::{Body, Total};
use book::{Book, SeatRefused};
use lane::SeatRefusal;
use lane::SeatRefusal::{NoSeat, NoWay, NotIdle, Number, Reach, Records};
use std::process::Abort;
use std::test::Fail;

// Who asks for a seat with what, and the refusal.
#[derive(Clone, Copy)]
struct Row(Seat, Way, Sum, Option<SeatRefusal>);

// The body that comes back stands where it stood, with its reach and length.
fn same<B: Body + Drop>(rt: &impl Abort, back: B, given: B) {
    assert_eq!(rt; back.request(), given.request());
    assert_eq!(rt;
        (back.reach_of(), back.length_of()),
        (given.reach_of(), given.length_of())
    );
}

// A body is seated, or it is refused so and comes back as it was given: one that is the same is given beside it. The way is a number,
// as `seat` takes it.
fn tries<B: Body + Drop>(
    rt: &impl Abort,
    book: &mut Book<B>,
    seat: u32,
    way: u32,
    body: B,
    given: B,
) -> Result<Option<SeatRefusal>, Fail> {
    match book.seat(seat, way, 5, body) {
        Ok(()) => Ok(None),
        Err(refused) => {
            let SeatRefused { refusal, body } = refused;
            same(rt, body, given);
            Ok(Some(refusal))
        }
    }
}

fn seats_all(rt: &impl Abort, book: &mut Book<Total>, rows: &[Row]) -> Result<(), Fail> {
    for row in rows {
        let Row(seat, way, sum, expected) = *row;
        let body = total(sum)?;
        assert_eq!(rt; tries(rt, book, seat.0, way.0, body, body)?, expected);
    }
    Ok(())
}

// Of eight cells. One cell read, and one written: reach 2, length 2.
const SMALL: Sum = Sum {
    first: 0,
    last: 0,
    target: 1,
};

// Length 3.
const THREE: Sum = Sum {
    first: 0,
    last: 1,
    target: 7,
};

// Reach 9.
const FAR: Sum = Sum {
    first: 0,
    last: 0,
    target: 8,
};

// Length 9.
const LONG: Sum = Sum {
    first: 0,
    last: 7,
    target: 0,
};

const FAR_AND_LONG: Sum = Sum {
    first: 0,
    last: 8,
    target: 0,
};

const EIGHT: [i64; 8] = [1, 2, 3, 4, 5, 6, 7, 8];

// Logs for two helpers, and seven records.
const SHORT: Lengths = Lengths {
    marks: 2,
    reads: 128,
    writes: 64,
    journal: 7,
};

const SEATS: &[Row] = &[
    // Wrong in all that is tried after it.
    Row(Seat(3), Way(0), FAR_AND_LONG, Some(NoSeat)),
    Row(Seat(4_294_967_295), Way(1), SMALL, Some(NoSeat)),
    Row(Seat(1), Way(0), FAR_AND_LONG, Some(NoWay)),
    Row(Seat(0), Way(1), FAR_AND_LONG, Some(NoWay)),
    Row(Seat(0), Way(0), FAR_AND_LONG, Some(Reach)),
    Row(Seat(1), Way(1), FAR_AND_LONG, Some(Reach)),
    Row(Seat(0), Way(0), LONG, Some(Records)),
    Row(Seat(1), Way(3), LONG, Some(Records)),
    // Wrong in one.
    Row(Seat(0), Way(1), SMALL, Some(NoWay)),
    Row(Seat(0), Way(4_294_967_295), SMALL, Some(NoWay)),
    Row(Seat(1), Way(4), SMALL, Some(NoWay)),
    Row(Seat(2), Way(0), SMALL, Some(NoWay)),
    Row(Seat(2), Way(2), FAR, Some(Reach)),
    // Four records are kept for the master's, and the other three for a helper's.
    Row(Seat(0), Way(0), THREE, None),
    Row(Seat(0), Way(1), FAR_AND_LONG, Some(NotIdle)),
    Row(Seat(0), Way(0), SMALL, Some(NotIdle)),
    Row(Seat(1), Way(2), THREE, Some(Records)),
    Row(Seat(1), Way(2), SMALL, None),
    Row(Seat(1), Way(0), FAR_AND_LONG, Some(NotIdle)),
    Row(Seat(2), Way(3), SMALL, Some(Records)),
];

#[test]
fn refusals(rt: HostRuntime) -> Result<(), Fail> {
    let mut lists = lay(rt.alloc(), &EIGHT, SHORT)?;
    let mut book: Book<Total> = open_on(&mut lists, 1, 2, 0)?;
    seats_all(&rt, &mut book, SEATS)
}

const BEFORE: &[Row] = &[
    Row(Seat(0), Way(0), SMALL, None),
    Row(Seat(1), Way(1), SMALL, None),
];

const AFTER: &[Row] = &[
    Row(Seat(3), Way(0), FAR_AND_LONG, Some(NoSeat)),
    Row(Seat(1), Way(0), FAR_AND_LONG, Some(NotIdle)),
    Row(Seat(2), Way(0), FAR_AND_LONG, Some(NoWay)),
    Row(Seat(2), Way(1), FAR_AND_LONG, Some(Reach)),
    Row(Seat(0), Way(0), LONG, Some(Number)),
    Row(Seat(2), Way(1), LONG, Some(Number)),
    Row(Seat(0), Way(0), SMALL, Some(Number)),
];

// A commit brings the number to 2,147,483,600. A helper that was seated before may still commit.
#[test]
fn numbers(rt: HostRuntime) -> Result<(), Fail> {
    let mut lists = lay(rt.alloc(), &EIGHT, SHORT)?;
    let mut book: Book<Total> = open_on(&mut lists, 1, 2, 2_147_483_598)?;
    seats_all(&rt, &mut book, BEFORE)?;
    let master = [GoesOn(Seat(0), Times(6)), Commits(Seat(0), 2_147_483_599)];
    turns(&rt, &mut book, &mut lists, &master, "the master")?;
    seats_all(&rt, &mut book, AFTER)?;
    let helper = [GoesOn(Seat(1), Times(10)), Commits(Seat(1), 2_147_483_601)];
    turns(&rt, &mut book, &mut lists, &helper, "the helper")
}
