// What totals do alone, and their reach and length.
use super::alone::{Measures, Run, Tellings, does, measured, runs};
use super::limits::{LIMIT, OUTSIDE, WITHIN};
use body::Total;
use std::alloc::{AllocError, Global};
use std::process::Abort;
use std::test::Fail;

// A total of the cells `first` to `last` into `target`.
struct Row {
    name: &'static str,
    first: u32,
    last: u32,
    target: u32,
    run: Run<'static>,
}

const ROWS: &[Row] = &[
    Row {
        name: "one cell",
        first: 0,
        last: 0,
        target: 1,
        run: Run {
            cells: &[5, 9],
            handed: &[5],
            left: &[5, 5],
        },
    },
    Row {
        name: "one cell, the target before it",
        first: 1,
        last: 1,
        target: 0,
        run: Run {
            cells: &[5, 9],
            handed: &[9],
            left: &[9, 9],
        },
    },
    Row {
        name: "one cell, which is the target",
        first: 1,
        last: 1,
        target: 1,
        run: Run {
            cells: &[5, 9],
            handed: &[9],
            left: &[5, 9],
        },
    },
    Row {
        name: "a sum of 0",
        first: 0,
        last: 0,
        target: 1,
        run: Run {
            cells: &[0, 9],
            handed: &[0],
            left: &[0, 0],
        },
    },
    Row {
        name: "the target before the range",
        first: 1,
        last: 3,
        target: 0,
        run: Run {
            cells: &[7, 1, 2, 3],
            handed: &[1, 2, 3],
            left: &[6, 1, 2, 3],
        },
    },
    Row {
        name: "the target behind the range",
        first: 0,
        last: 1,
        target: 3,
        run: Run {
            cells: &[-4, 4, 8, 9],
            handed: &[-4, 4],
            left: &[-4, 4, 8, 0],
        },
    },
    Row {
        name: "the target first in the range",
        first: 0,
        last: 2,
        target: 0,
        run: Run {
            cells: &[4, 5, 6],
            handed: &[4, 5, 6],
            left: &[15, 5, 6],
        },
    },
    Row {
        name: "the target in the middle",
        first: 0,
        last: 2,
        target: 1,
        run: Run {
            cells: &[4, 5, 6],
            handed: &[4, 5, 6],
            left: &[4, 15, 6],
        },
    },
    Row {
        name: "the target last in the range",
        first: 0,
        last: 2,
        target: 2,
        run: Run {
            cells: &[4, 5, 6],
            handed: &[4, 5, 6],
            left: &[4, 5, 15],
        },
    },
    Row {
        name: "a negative sum",
        first: 1,
        last: 2,
        target: 0,
        run: Run {
            cells: &[9, -3, 1],
            handed: &[-3, 1],
            left: &[-2, -3, 1],
        },
    },
    // The whole sum at the limit, and beyond it.
    Row {
        name: "one above",
        first: 0,
        last: 1,
        target: 2,
        run: Run {
            cells: &[LIMIT, 1, 7],
            handed: &[LIMIT, 1],
            left: &[LIMIT, 1, 7],
        },
    },
    Row {
        name: "one above, the other way",
        first: 0,
        last: 1,
        target: 2,
        run: Run {
            cells: &[1, LIMIT, 7],
            handed: &[1, LIMIT],
            left: &[1, LIMIT, 7],
        },
    },
    Row {
        name: "one below",
        first: 0,
        last: 1,
        target: 2,
        run: Run {
            cells: &[-LIMIT, -1, 7],
            handed: &[-LIMIT, -1],
            left: &[-LIMIT, -1, 7],
        },
    },
    Row {
        name: "far above",
        first: 0,
        last: 1,
        target: 2,
        run: Run {
            cells: &[LIMIT, LIMIT, 7],
            handed: &[LIMIT, LIMIT],
            left: &[LIMIT, LIMIT, 7],
        },
    },
    Row {
        name: "the limit",
        first: 0,
        last: 1,
        target: 2,
        run: Run {
            cells: &[LIMIT - 1, 1, 7],
            handed: &[LIMIT - 1, 1],
            left: &[LIMIT - 1, 1, LIMIT],
        },
    },
    Row {
        name: "minus the limit",
        first: 0,
        last: 1,
        target: 2,
        run: Run {
            cells: &[1 - LIMIT, -1, 7],
            handed: &[1 - LIMIT, -1],
            left: &[1 - LIMIT, -1, -LIMIT],
        },
    },
    Row {
        name: "limits that cancel",
        first: 0,
        last: 1,
        target: 2,
        run: Run {
            cells: &[LIMIT, -LIMIT, 7],
            handed: &[LIMIT, -LIMIT],
            left: &[LIMIT, -LIMIT, 0],
        },
    },
    // Only the whole sum counts: on the way it may be beyond the limit.
    Row {
        name: "above on the way",
        first: 0,
        last: 2,
        target: 3,
        run: Run {
            cells: &[LIMIT, 1, -1, 7],
            handed: &[LIMIT, 1, -1],
            left: &[LIMIT, 1, -1, LIMIT],
        },
    },
    Row {
        name: "below on the way",
        first: 0,
        last: 2,
        target: 3,
        run: Run {
            cells: &[-LIMIT, -LIMIT, LIMIT, 7],
            handed: &[-LIMIT, -LIMIT, LIMIT],
            left: &[-LIMIT, -LIMIT, LIMIT, -LIMIT],
        },
    },
];

#[test]
fn sums(rt: HostRuntime) -> Result<(), Fail> {
    for row in ROWS {
        let mut total = Total::new(row.first, row.last, row.target)?;
        does(&rt, rt.alloc(), &mut total, row.run, row.name)?;
    }
    Ok(())
}

// A given amount within the limit is summed.
#[test]
fn amounts_within(rt: HostRuntime) -> Result<(), Fail> {
    let heap = rt.alloc();
    let mut one = Total::new(0, 0, 1)?;
    let mut two = Total::new(0, 1, 2)?;
    for amount in WITHIN {
        let run = Run {
            cells: &[amount, 3],
            handed: &[amount],
            left: &[amount, amount],
        };
        does(&rt, heap, &mut one, run, "alone")?;
        let run = Run {
            cells: &[0, amount, 3],
            handed: &[0, amount],
            left: &[0, amount, amount],
        };
        does(&rt, heap, &mut two, run, "added to 0")?;
    }
    Ok(())
}

// A given amount beyond the limit ends the total, whether it is all of the range, the first of it, one in the middle, or the last.
// Outside the range it is not read.
#[test]
fn amounts_beyond(rt: HostRuntime) -> Result<(), Fail> {
    let heap = rt.alloc();
    let mut one = Total::new(0, 0, 1)?;
    let mut three = Total::new(0, 2, 3)?;
    let mut middle = Total::new(1, 1, 0)?;
    for amount in OUTSIDE {
        let run = Run {
            cells: &[amount, 3],
            handed: &[amount],
            left: &[amount, 3],
        };
        does(&rt, heap, &mut one, run, "all of the range")?;
        let rows = [
            ([amount, 1, 2, 3], 1, "the first"),
            ([1, amount, 2, 3], 2, "in the middle"),
            ([1, 2, amount, 3], 3, "the last"),
        ];
        for (cells, reads, name) in rows {
            let run = Run {
                cells: &cells,
                handed: &cells[..reads],
                left: &cells,
            };
            does(&rt, heap, &mut three, run, name)?;
        }
        let run = Run {
            cells: &[amount, 3, amount],
            handed: &[3],
            left: &[3, 3, amount],
        };
        does(&rt, heap, &mut middle, run, "outside the range")?;
    }
    Ok(())
}

// 4096 cells: the first 2048 with one amount, the others with another.
fn halves(heap: Global, front: i64, back: i64) -> Result<Vec<i64>, AllocError> {
    let mut cells = vec![in heap; front; 2048]?;
    cells.resize(4096, back)?;
    Ok(cells)
}

// The total of all cells into cell 0, which gets this amount.
fn totals_all(rt: &impl Abort, heap: Global, cells: &[i64], amount: i64) -> Result<(), Fail> {
    let mut left = cells.to_vec(heap)?;
    assert!(rt; left.len() == 4096);
    left[0] = amount;
    let run = Run {
        cells,
        handed: cells,
        left: left.as_slice(),
    };
    let mut total = Total::new(0, 4095, 0)?;
    for tellings in [Tellings::Right, Tellings::Wrong] {
        runs(rt, heap, &mut total, tellings, run, "all cells")?;
    }
    Ok(())
}

#[test]
fn all_cells(rt: HostRuntime) -> Result<(), Fail> {
    let heap = rt.alloc();
    // The amounts of both halves, and what cell 0 gets.
    let table = [
        (1, 1, 4096),
        (3, -1, 4096),
        // Far beyond the limit on the way, and back to 0.
        (LIMIT, -LIMIT, 0),
        (-LIMIT, LIMIT, 0),
        // Beyond the limit at the end: cell 0 keeps its amount.
        (LIMIT, LIMIT, LIMIT),
        (-LIMIT, -LIMIT, -LIMIT),
    ];
    for (front, back, amount) in table {
        totals_all(&rt, heap, halves(heap, front, back)?.as_slice(), amount)?;
    }
    Ok(())
}

#[test]
fn measures(rt: HostRuntime) -> Result<(), Fail> {
    // First, last, target; reach and length.
    let table = [
        (0, 0, 0, 1, 2),
        (0, 0, 1, 2, 2),
        (1, 1, 0, 2, 2),
        (2, 5, 3, 6, 5),
        (2, 5, 0, 6, 5),
        (2, 5, 5, 6, 5),
        (2, 5, 6, 7, 5),
        (2, 5, 9, 10, 5),
        (0, 1, 0, 2, 3),
        (0, 0, 4095, 4096, 2),
        (4095, 4095, 0, 4096, 2),
        (4095, 4095, 4095, 4096, 2),
        (4094, 4095, 0, 4096, 3),
        (0, 4094, 0, 4095, 4096),
        (0, 4095, 0, 4096, 4097),
        (0, 4095, 4095, 4096, 4097),
    ];
    for (first, last, target, reach, length) in table {
        let measures = Measures {
            reach,
            length,
            kind: 2,
        };
        measured(&rt, &mut Total::new(first, last, target)?, measures);
    }
    Ok(())
}
