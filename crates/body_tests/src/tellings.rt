// Tellings that answer the request, those that do not, and restarts, call by call.
use super::calls::Call::{Restart, Tell, Took};
use super::calls::answers;
use super::limits::{BEYOND, LEAST, LIMIT, MOST};
use super::scripts::script;
use body::Request::{End, Read, Write};
use body::{Body, Either, Script, ScriptStep, Total};
use std::test::Fail;

#[test]
fn kinds(rt: HostRuntime) {
    assert_eq!(rt; Total::KIND, 2);
    assert_eq!(rt; Script::KIND, 3);
    assert_eq!(rt; Either::<Total, Script>::KIND, 4);
    assert_eq!(rt; Either::<Script, Either<Script, Total>>::KIND, 4);
}

// The cells 4 to 6 into 9.
#[test]
fn total(rt: HostRuntime) -> Result<(), Fail> {
    let table = [
        // It stands at its start, and nothing is to be taken.
        (Took, Read(4)),
        (Tell(10), Read(5)),
        (Took, Read(5)),
        (Took, Read(5)),
        (Tell(-3), Read(6)),
        (Took, Read(6)),
        (Tell(100), Write(9, 107)),
        // Nothing is to be told.
        (Tell(1), Write(9, 107)),
        (Tell(BEYOND), Write(9, 107)),
        (Tell(LEAST), Write(9, 107)),
        (Tell(MOST), Write(9, 107)),
        (Took, End),
        (Took, End),
        (Tell(0), End),
        (Tell(LIMIT), End),
        (Tell(MOST), End),
        (Took, End),
        // Restarts at the end, at the start, and at each place in the middle.
        (Restart, Read(4)),
        (Restart, Read(4)),
        (Tell(1), Read(5)),
        (Restart, Read(4)),
        (Tell(1), Read(5)),
        (Tell(2), Read(6)),
        (Restart, Read(4)),
        (Tell(1), Read(5)),
        (Tell(2), Read(6)),
        (Tell(3), Write(9, 6)),
        (Restart, Read(4)),
        // Ended by a given amount.
        (Tell(1), Read(5)),
        (Tell(BEYOND), End),
        (Tell(1), End),
        (Took, End),
        (Restart, Read(4)),
        // Ended by the sum.
        (Tell(LIMIT), Read(5)),
        (Tell(1), Read(6)),
        (Tell(0), End),
        (Took, End),
        (Tell(-1), End),
        (Restart, Read(4)),
        // Nothing of the runs before is left.
        (Tell(5), Read(5)),
        (Tell(6), Read(6)),
        (Tell(7), Write(9, 18)),
        (Took, End),
        (Restart, Read(4)),
    ];
    let mut total = Total::new(4, 6, 9)?;
    answers(&rt, &mut total, &table);
    let mut left: Either<Total, Script> = Either::Left(total);
    answers(&rt, &mut left, &table);
    let mut right: Either<Script, Total> = Either::Right(total);
    answers(&rt, &mut right, &table);
    Ok(())
}

#[test]
fn steps(rt: HostRuntime) -> Result<(), Fail> {
    let heap = rt.alloc();
    let steps = [
        ScriptStep::Carry { cell: 1 },
        ScriptStep::Read { cell: 2 },
        ScriptStep::Put {
            cell: 3,
            amount: 50,
        },
        ScriptStep::Carry { cell: 4 },
    ];
    let table = [
        // It stands at its start, and nothing is to be told.
        (Tell(5), Write(1, 0)),
        (Tell(BEYOND), Write(1, 0)),
        (Took, Read(2)),
        // Nothing is to be taken.
        (Took, Read(2)),
        (Tell(-8), Write(3, 50)),
        // What is told here is not the amount read last.
        (Tell(9), Write(3, 50)),
        (Took, Write(4, -8)),
        (Tell(LEAST), Write(4, -8)),
        (Tell(MOST), Write(4, -8)),
        (Took, End),
        (Took, End),
        (Tell(0), End),
        (Tell(LIMIT), End),
        (Tell(MOST), End),
        (Took, End),
        // Restarts at the end, at the start, and at each place in the middle: 0 is carried again.
        (Restart, Write(1, 0)),
        (Restart, Write(1, 0)),
        (Took, Read(2)),
        (Restart, Write(1, 0)),
        (Took, Read(2)),
        (Tell(6), Write(3, 50)),
        (Restart, Write(1, 0)),
        (Took, Read(2)),
        (Tell(6), Write(3, 50)),
        (Took, Write(4, 6)),
        (Restart, Write(1, 0)),
        // Ended by the carried amount.
        (Took, Read(2)),
        (Tell(-BEYOND), Write(3, 50)),
        (Took, End),
        (Tell(1), End),
        (Took, End),
        (Restart, Write(1, 0)),
        // Nothing of the runs before is left.
        (Took, Read(2)),
        (Tell(7), Write(3, 50)),
        (Took, Write(4, 7)),
        (Took, End),
        (Restart, Write(1, 0)),
    ];
    answers(&rt, &mut script(heap, &steps)?, &table);
    let mut left: Either<Script, Total> = Either::Left(script(heap, &steps)?);
    answers(&rt, &mut left, &table);
    let mut right: Either<Total, Script> = Either::Right(script(heap, &steps)?);
    answers(&rt, &mut right, &table);
    Ok(())
}

#[test]
fn no_steps(rt: HostRuntime) -> Result<(), Fail> {
    let table = [
        (Took, End),
        (Tell(0), End),
        (Tell(1), End),
        (Tell(LEAST), End),
        (Restart, End),
        (Took, End),
        (Tell(1), End),
    ];
    let mut none = script(rt.alloc(), &[])?;
    answers(&rt, &mut none, &table);
    let mut held: Either<Script, Total> = Either::Left(none);
    answers(&rt, &mut held, &table);
    Ok(())
}

// Amounts that are told for a read: written as they are, or the end.
#[test]
fn told_amounts(rt: HostRuntime) -> Result<(), Fail> {
    let steps = [ScriptStep::Read { cell: 2 }, ScriptStep::Carry { cell: 1 }];
    let mut carries = script(rt.alloc(), &steps)?;
    let mut total = Total::new(2, 2, 1)?;
    let told = [
        (0, Write(1, 0)),
        (1, Write(1, 1)),
        (-1, Write(1, -1)),
        (LIMIT, Write(1, LIMIT)),
        (-LIMIT, Write(1, -LIMIT)),
        (BEYOND, End),
        (-BEYOND, End),
        (MOST, End),
        (LEAST, End),
    ];
    for (amount, asked) in told {
        let table = [
            (Restart, Read(2)),
            (Tell(amount), asked),
            (Tell(5), asked),
            (Took, End),
        ];
        answers(&rt, &mut carries, &table);
        answers(&rt, &mut total, &table);
    }
    Ok(())
}
