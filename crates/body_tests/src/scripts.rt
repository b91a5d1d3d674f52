// What scripts do alone, and their reach and length.
use super::alone::{Measures, Run, does, measured};
use super::limits::{OUTSIDE, WITHIN};
use body::ScriptStep::{Carry, Put, Read};
use body::{Script, ScriptStep};
use std::alloc::Global;
use std::process::Abort;
use std::test::Fail;

pub(crate) fn script(heap: Global, steps: &[ScriptStep]) -> Result<Script, Fail> {
    Ok(Script::new(steps.to_vec(heap)?)?)
}

// A script of these steps does so.
fn scripts(
    rt: &impl Abort,
    heap: Global,
    steps: &[ScriptStep],
    run: Run<'_>,
    name: &str,
) -> Result<(), Fail> {
    does(rt, heap, &mut script(heap, steps)?, run, name)
}

const READ: ScriptStep = Read { cell: 0 };

const OTHER: ScriptStep = Read { cell: 1 };

const CARRY: ScriptStep = Carry { cell: 2 };

const CARRY_BACK: ScriptStep = Carry { cell: 1 };

const PUT_3: ScriptStep = Put { cell: 1, amount: 3 };

const PUT_4: ScriptStep = Put { cell: 1, amount: 4 };

const PUT_7: ScriptStep = Put { cell: 1, amount: 7 };

struct Row {
    name: &'static str,
    steps: &'static [ScriptStep],
    run: Run<'static>,
}

const ROWS: &[Row] = &[
    Row {
        name: "no step",
        steps: &[],
        run: Run {
            cells: &[1, 2],
            handed: &[],
            left: &[1, 2],
        },
    },
    Row {
        name: "a read",
        steps: &[READ],
        run: Run {
            cells: &[5, 6],
            handed: &[5],
            left: &[5, 6],
        },
    },
    Row {
        name: "a read of another cell",
        steps: &[OTHER],
        run: Run {
            cells: &[5, 6],
            handed: &[6],
            left: &[5, 6],
        },
    },
    Row {
        name: "a put",
        steps: &[PUT_7],
        run: Run {
            cells: &[5, 6],
            handed: &[],
            left: &[5, 7],
        },
    },
    Row {
        name: "0 is carried before any read",
        steps: &[CARRY_BACK],
        run: Run {
            cells: &[5, 6],
            handed: &[],
            left: &[5, 0],
        },
    },
    Row {
        name: "0 is carried after a put",
        steps: &[PUT_7, Carry { cell: 0 }],
        run: Run {
            cells: &[5, 6],
            handed: &[],
            left: &[0, 7],
        },
    },
    Row {
        name: "one cell read twice",
        steps: &[READ, READ],
        run: Run {
            cells: &[5, 6],
            handed: &[5, 5],
            left: &[5, 6],
        },
    },
    Row {
        name: "a carry",
        steps: &[READ, CARRY],
        run: Run {
            cells: &[5, 6, 7],
            handed: &[5],
            left: &[5, 6, 5],
        },
    },
    Row {
        name: "the amount read last, and not the first",
        steps: &[READ, OTHER, CARRY],
        run: Run {
            cells: &[5, 6, 7],
            handed: &[5, 6],
            left: &[5, 6, 6],
        },
    },
    Row {
        name: "the amount read last, and not the highest",
        steps: &[OTHER, READ, CARRY],
        run: Run {
            cells: &[5, 6, 7],
            handed: &[6, 5],
            left: &[5, 6, 5],
        },
    },
    Row {
        name: "a put is not a read",
        steps: &[READ, PUT_3, CARRY],
        run: Run {
            cells: &[5, 6, 7],
            handed: &[5],
            left: &[5, 3, 5],
        },
    },
    Row {
        name: "what it wrote itself is read again",
        steps: &[PUT_3, OTHER, CARRY],
        run: Run {
            cells: &[5, 6, 7],
            handed: &[3],
            left: &[5, 3, 3],
        },
    },
    Row {
        name: "the same amount is carried to two cells",
        steps: &[READ, CARRY, CARRY_BACK],
        run: Run {
            cells: &[5, 6, 7],
            handed: &[5],
            left: &[5, 5, 5],
        },
    },
    Row {
        name: "0 at first, and then what was read",
        steps: &[CARRY, READ, CARRY_BACK],
        run: Run {
            cells: &[5, 6, 7],
            handed: &[5],
            left: &[5, 5, 0],
        },
    },
    Row {
        name: "a read where it carried",
        steps: &[READ, CARRY, Read { cell: 2 }],
        run: Run {
            cells: &[5, 6, 7],
            handed: &[5, 5],
            left: &[5, 6, 5],
        },
    },
];

#[test]
fn steps(rt: HostRuntime) -> Result<(), Fail> {
    for row in ROWS {
        scripts(&rt, rt.alloc(), row.steps, row.run, row.name)?;
    }
    Ok(())
}

// An amount within the limit is carried, and what follows is done: cell 1 gets this amount.
const CARRIED: &[(&[ScriptStep], i64)] = &[(&[READ, CARRY], 6), (&[READ, CARRY, PUT_4], 4)];

// An amount beyond the limit ends the script where it would be carried: what comes before is done, and what follows is not. Where
// it is not carried it ends nothing. Cell 1 gets this amount.
const CUT_SHORT: &[(&[ScriptStep], i64)] = &[
    (&[READ, CARRY], 6),
    (&[READ, CARRY, PUT_4], 6),
    (&[READ, CARRY, OTHER], 6),
    (&[READ, PUT_4, CARRY], 4),
    (&[READ], 6),
    (&[READ, PUT_4], 4),
];

#[test]
fn carried_amounts(rt: HostRuntime) -> Result<(), Fail> {
    for amount in WITHIN {
        for (steps, next) in CARRIED.iter().copied() {
            let run = Run {
                cells: &[amount, 6, 7],
                handed: &[amount],
                left: &[amount, next, amount],
            };
            scripts(&rt, rt.alloc(), steps, run, "carried")?;
        }
    }
    Ok(())
}

#[test]
fn ending_amounts(rt: HostRuntime) -> Result<(), Fail> {
    for amount in OUTSIDE {
        for (steps, next) in CUT_SHORT.iter().copied() {
            let run = Run {
                cells: &[amount, 6, 7],
                handed: &[amount],
                left: &[amount, next, 7],
            };
            scripts(&rt, rt.alloc(), steps, run, "cut short")?;
        }
    }
    Ok(())
}

// An amount beyond the limit that was not read last ends nothing.
#[test]
fn forgotten_amounts(rt: HostRuntime) -> Result<(), Fail> {
    for amount in OUTSIDE {
        let run = Run {
            cells: &[amount, 6, 7],
            handed: &[amount, 6],
            left: &[amount, 6, 6],
        };
        scripts(&rt, rt.alloc(), &[READ, OTHER, CARRY], run, "forgotten")?;
    }
    Ok(())
}

// Amounts that are put, at the limit.
#[test]
fn put_amounts(rt: HostRuntime) -> Result<(), Fail> {
    for amount in WITHIN {
        let put = Put { cell: 1, amount };
        let run = Run {
            cells: &[5, 6],
            handed: &[],
            left: &[5, amount],
        };
        scripts(&rt, rt.alloc(), &[put], run, "put")?;
        let run = Run {
            cells: &[5, 6],
            handed: &[amount],
            left: &[amount, amount],
        };
        let steps = [put, OTHER, Carry { cell: 0 }];
        scripts(&rt, rt.alloc(), &steps, run, "put and carried")?;
    }
    Ok(())
}

// As many steps as there may be: 8 reads, each followed by a write to the next cell.
#[test]
fn sixteen(rt: HostRuntime) -> Result<(), Fail> {
    let heap = rt.alloc();
    let mut steps = Vec::new(heap);
    for cell in 0..8 {
        steps.push(Read { cell })?;
        steps.push(Carry { cell: cell + 1 })?;
    }
    let mut body = script(heap, steps.as_slice())?;
    let measures = Measures {
        reach: 9,
        length: 16,
        kind: 3,
    };
    measured(&rt, &mut body, measures);
    let run = Run {
        cells: &[1, 2, 3, 4, 5, 6, 7, 8, 9, 10],
        handed: &[1, 1, 1, 1, 1, 1, 1, 1],
        left: &[1, 1, 1, 1, 1, 1, 1, 1, 1, 10],
    };
    does(&rt, heap, &mut body, run, "sixteen steps")
}

const HIGH: ScriptStep = Put { cell: 7, amount: 1 };

const TOP: ScriptStep = Put {
    cell: 4095,
    amount: 1,
};

// Steps, with the reach and the length of their script.
const MEASURES: &[(&[ScriptStep], usize, usize)] = &[
    (&[], 0, 0),
    (&[Read { cell: 0 }], 1, 1),
    (&[Carry { cell: 0 }], 1, 1),
    (&[HIGH], 8, 1),
    (&[Read { cell: 4095 }], 4096, 1),
    (&[Carry { cell: 4095 }], 4096, 1),
    (&[TOP], 4096, 1),
    // The highest cell first, in the middle and last.
    (&[Read { cell: 9 }, HIGH, Carry { cell: 8 }], 10, 3),
    (&[Read { cell: 3 }, HIGH, Carry { cell: 6 }], 8, 3),
    (&[Read { cell: 3 }, HIGH, Carry { cell: 8 }], 9, 3),
    (&[HIGH, HIGH], 8, 2),
];

#[test]
fn measures(rt: HostRuntime) -> Result<(), Fail> {
    for (steps, reach, length) in MEASURES.iter().copied() {
        let measures = Measures {
            reach,
            length,
            kind: 3,
        };
        measured(&rt, &mut script(rt.alloc(), steps)?, measures);
    }
    Ok(())
}
