// One of two kinds does as the one that it holds.
use super::alone::{Measures, Run, does, measured};
use super::limits::{BEYOND, LIMIT};
use super::scripts::script;
use body::Either::{Left, Right};
use body::ScriptStep::{Carry, Put, Read};
use body::{Body, Either, Request, Script, Total};
use std::alloc::Global;
use std::process::Abort;
use std::test::Fail;

// A body with this reach and this length does so on each row's cells.
fn holds<B: Body>(
    rt: &impl Abort,
    heap: Global,
    body: &mut B,
    reach: usize,
    length: usize,
    table: &[Run<'_>],
) -> Result<(), Fail> {
    let measures = Measures {
        reach,
        length,
        kind: 4,
    };
    measured(rt, body, measures);
    for run in table.iter().copied() {
        does(rt, heap, body, run, "one of two kinds")?;
    }
    Ok(())
}

// Of cells 0 and 1 into cell 3.
fn left() -> Result<Either<Total, Script>, Fail> {
    Ok(Left(Total::new(0, 1, 3)?))
}

// Carries cell 0 to cell 2, and puts 4 into cell 1.
fn right(heap: Global) -> Result<Either<Total, Script>, Fail> {
    let steps = [
        Read { cell: 0 },
        Carry { cell: 2 },
        Put { cell: 1, amount: 4 },
    ];
    Ok(Right(script(heap, &steps)?))
}

const SUMMED: Run<'static> = Run {
    cells: &[5, 6, 7, 8],
    handed: &[5, 6],
    left: &[5, 6, 7, 11],
};

#[test]
fn held(rt: HostRuntime) -> Result<(), Fail> {
    let heap = rt.alloc();
    let summed = [
        SUMMED,
        Run {
            cells: &[BEYOND, 6, 7, 8],
            handed: &[BEYOND],
            left: &[BEYOND, 6, 7, 8],
        },
        Run {
            cells: &[LIMIT, 1, 7, 8],
            handed: &[LIMIT, 1],
            left: &[LIMIT, 1, 7, 8],
        },
    ];
    holds(&rt, heap, &mut left()?, 4, 3, &summed)?;
    let carried = [
        Run {
            cells: &[5, 6, 7, 8],
            handed: &[5],
            left: &[5, 4, 5, 8],
        },
        Run {
            cells: &[LIMIT, 6, 7, 8],
            handed: &[LIMIT],
            left: &[LIMIT, 4, LIMIT, 8],
        },
        Run {
            cells: &[BEYOND, 6, 7, 8],
            handed: &[BEYOND],
            left: &[BEYOND, 6, 7, 8],
        },
    ];
    holds(&rt, heap, &mut right(heap)?, 3, 3, &carried)
}

// An either in an either.
#[test]
fn nested(rt: HostRuntime) -> Result<(), Fail> {
    let heap = rt.alloc();
    let mut inner: Either<Script, Either<Total, Script>> = Right(left()?);
    holds(&rt, heap, &mut inner, 4, 3, &[SUMMED])?;
    let carries = script(heap, &[Carry { cell: 1 }])?;
    let mut outer: Either<Script, Either<Total, Script>> = Left(carries);
    let carried = Run {
        cells: &[5, 6],
        handed: &[],
        left: &[5, 0],
    };
    holds(&rt, heap, &mut outer, 2, 1, &[carried])?;
    let mut none: Either<Script, Either<Total, Script>> = Right(Right(script(heap, &[])?));
    assert_eq!(rt; none.request(), Request::End);
    let untouched = Run {
        cells: &[5, 6],
        handed: &[],
        left: &[5, 6],
    };
    holds(&rt, heap, &mut none, 0, 0, &[untouched])
}
