// What imports do alone, which lines they leave unposted, and their reach and length.
use super::alone::{Measures, Run, does, measured};
use super::calls::Call::{Restart, Tell, Took};
use super::calls::answers;
use super::limits::{BEYOND, LEAST, LIMIT, MOST};
use body::Request::{End, Read, Write};
use body::{Body, Import};
use imports::check as check_text;
use std::alloc::Global;
use std::process::Abort;
use std::test::Fail;

fn import(heap: Global, text: &str) -> Result<Import, Fail> {
    match check_text(text.as_bytes().to_vec(heap)?) {
        Ok(checked) => Ok(Import::new(checked)),
        Err(_) => Err(Fail::new("the text is refused")),
    }
}

// An import of this text does so, and leaves so many lines unposted.
fn books(
    rt: &impl Abort,
    heap: Global,
    text: &str,
    run: Run<'_>,
    unposted: u32,
) -> Result<(), Fail> {
    let mut body = import(heap, text)?;
    assert_eq!(rt; body.unposted(), 0, "{text}: unposted at the start");
    does(rt, heap, &mut body, run, text)?;
    assert_eq!(rt; body.unposted(), unposted, "{text}: unposted");
    body.restart();
    assert_eq!(rt; body.unposted(), 0, "{text}: unposted after a restart");
    Ok(())
}

// A text of which every line is booked.
struct Booked {
    text: &'static str,
    run: Run<'static>,
}

// One unit more or less.
const MORE: &str = "H\tDKK\nP\t0\t0.01\n";

const LESS: &str = "H\tDKK\nP\t0\t-0.01\n";

// The greatest amount that a text can have.
const GREATEST: &str = "H\tDKK\nP\t0\t10000000000000.00\n";

// A transfer of one unit, and one back.
const MOVE: &str = "H\tDKK\nT\t0\t1\t0.01\n";

const BACK: &str = "H\tDKK\nT\t0\t1\t-0.01\n";

const BOOKED: &[Booked] = &[
    // No line.
    Booked {
        text: "H\tDKK\n",
        run: Run {
            cells: &[],
            handed: &[],
            left: &[],
        },
    },
    Booked {
        text: "H\tJPY\n",
        run: Run {
            cells: &[BEYOND, 2],
            handed: &[],
            left: &[BEYOND, 2],
        },
    },
    // Posts.
    Booked {
        text: "H\tDKK\nP\t1\t2.50\n",
        run: Run {
            cells: &[5, 7],
            handed: &[7],
            left: &[5, 257],
        },
    },
    Booked {
        text: "H\tJPY\nP\t0\t-9\n",
        run: Run {
            cells: &[5, 7],
            handed: &[5],
            left: &[-4, 7],
        },
    },
    Booked {
        text: "H\tJPY\nP\t0\t0\n",
        run: Run {
            cells: &[5, 7],
            handed: &[5],
            left: &[5, 7],
        },
    },
    // Each line sees what the lines before it left.
    Booked {
        text: "H\tJPY\nP\t0\t3\nP\t0\t-10\n",
        run: Run {
            cells: &[5],
            handed: &[5, 8],
            left: &[-2],
        },
    },
    Booked {
        text: "H\tJPY\nP\t2\t1\nP\t0\t4\n",
        run: Run {
            cells: &[5, 6, 7],
            handed: &[7, 5],
            left: &[9, 6, 8],
        },
    },
    // Transfers.
    Booked {
        text: "H\tJPY\nT\t0\t2\t4\n",
        run: Run {
            cells: &[10, 20, 30],
            handed: &[10, 30],
            left: &[6, 20, 34],
        },
    },
    Booked {
        text: "H\tJPY\nT\t2\t0\t4\n",
        run: Run {
            cells: &[10, 20, 30],
            handed: &[30, 10],
            left: &[14, 20, 26],
        },
    },
    Booked {
        text: "H\tJPY\nT\t0\t2\t-4\n",
        run: Run {
            cells: &[10, 20, 30],
            handed: &[10, 30],
            left: &[14, 20, 26],
        },
    },
    // A transfer and its way back, then a post.
    Booked {
        text: "H\tJPY\nT\t0\t1\t7\nT\t1\t0\t7\nP\t1\t1\n",
        run: Run {
            cells: &[10, 20, 30],
            handed: &[10, 20, 27, 3, 20],
            left: &[10, 21, 30],
        },
    },
    // A post on a cell at the limit.
    Booked {
        text: MORE,
        run: Run {
            cells: &[LIMIT - 1],
            handed: &[LIMIT - 1],
            left: &[LIMIT],
        },
    },
    Booked {
        text: LESS,
        run: Run {
            cells: &[1 - LIMIT],
            handed: &[1 - LIMIT],
            left: &[-LIMIT],
        },
    },
    Booked {
        text: LESS,
        run: Run {
            cells: &[LIMIT],
            handed: &[LIMIT],
            left: &[LIMIT - 1],
        },
    },
    Booked {
        text: MORE,
        run: Run {
            cells: &[-LIMIT],
            handed: &[-LIMIT],
            left: &[1 - LIMIT],
        },
    },
    Booked {
        text: GREATEST,
        run: Run {
            cells: &[0],
            handed: &[0],
            left: &[LIMIT],
        },
    },
    Booked {
        text: GREATEST,
        run: Run {
            cells: &[-LIMIT],
            handed: &[-LIMIT],
            left: &[0],
        },
    },
    // A transfer there.
    Booked {
        text: MOVE,
        run: Run {
            cells: &[1 - LIMIT, LIMIT - 1],
            handed: &[1 - LIMIT, LIMIT - 1],
            left: &[-LIMIT, LIMIT],
        },
    },
    Booked {
        text: MOVE,
        run: Run {
            cells: &[LIMIT, -LIMIT],
            handed: &[LIMIT, -LIMIT],
            left: &[LIMIT - 1, 1 - LIMIT],
        },
    },
];

#[test]
fn every_line_booked(rt: HostRuntime) -> Result<(), Fail> {
    let heap = rt.alloc();
    for row in BOOKED {
        books(&rt, heap, row.text, row.run, 0)?;
    }
    assert_eq!(rt; import(heap, "H\tDKK\n")?.request(), End);
    Ok(())
}

// A text of one line, and cells on which it is left unposted: all of them are read, and they stay as they are.
struct Unposted {
    text: &'static str,
    cells: &'static [&'static [i64]],
}

const UNPOSTED: &[Unposted] = &[
    // The new amount is beyond the limit; or the given amount is, though the new one would not be; or both are.
    Unposted {
        text: MORE,
        cells: &[&[LIMIT], &[BEYOND], &[-BEYOND], &[MOST], &[LEAST]],
    },
    Unposted {
        text: LESS,
        cells: &[&[-LIMIT], &[BEYOND], &[-BEYOND], &[MOST], &[LEAST]],
    },
    Unposted {
        text: GREATEST,
        cells: &[&[1], &[MOST]],
    },
    // Of a transfer both given amounts and both new ones count.
    Unposted {
        text: MOVE,
        cells: &[
            &[-LIMIT, 0],
            &[0, LIMIT],
            &[-LIMIT, LIMIT],
            &[BEYOND, 0],
            &[0, -BEYOND],
            &[MOST, LEAST],
            &[LEAST, MOST],
        ],
    },
    Unposted {
        text: BACK,
        cells: &[&[LIMIT, 0], &[0, -LIMIT], &[-BEYOND, 0], &[0, BEYOND]],
    },
];

#[test]
fn one_line_unposted(rt: HostRuntime) -> Result<(), Fail> {
    let heap = rt.alloc();
    for row in UNPOSTED {
        for cells in row.cells.iter().copied() {
            let run = Run {
                cells,
                handed: cells,
                left: cells,
            };
            books(&rt, heap, row.text, run, 1)?;
        }
    }
    Ok(())
}

// Lines that are left out between lines that are booked.
#[test]
fn some_unposted(rt: HostRuntime) -> Result<(), Fail> {
    let text = "H\tJPY\nP\t0\t1\nP\t1\t1\nT\t0\t1\t2\nT\t1\t0\t5\nP\t0\t1\n";
    let run = Run {
        cells: &[3, LIMIT],
        handed: &[3, LIMIT, 4, LIMIT, LIMIT, 4, 9],
        left: &[10, LIMIT - 5],
    };
    books(&rt, rt.alloc(), text, run, 2)
}

// Amounts told that no cells of one time would give.
#[test]
fn any_amounts(rt: HostRuntime) -> Result<(), Fail> {
    let heap = rt.alloc();
    let mut body = import(heap, "H\tJPY\nT\t0\t2\t4\nP\t2\t1\n")?;
    let table = [
        (Took, Read(0)),
        (Tell(7), Read(2)),
        (Took, Read(2)),
        (Tell(9), Write(0, 3)),
        (Tell(5), Write(0, 3)),
        (Took, Write(2, 13)),
        (Tell(5), Write(2, 13)),
        (Took, Read(2)),
        // Not what was written.
        (Tell(50), Write(2, 51)),
        (Took, End),
        (Took, End),
        (Tell(1), End),
        (Restart, Read(0)),
        // The first amount is beyond the limit: the second is read all the same.
        (Tell(BEYOND), Read(2)),
        (Tell(1), Read(2)),
        (Tell(MOST), End),
    ];
    answers(&rt, &mut body, &table);
    assert_eq!(rt; body.unposted(), 2);
    // At the end of the line it stands where it began to read the next.
    answers(
        &rt,
        &mut body,
        &[
            (Restart, Read(0)),
            (Tell(LEAST), Read(2)),
            (Tell(0), Read(2)),
        ],
    );
    assert_eq!(rt; body.unposted(), 1);
    Ok(())
}

#[test]
fn measures(rt: HostRuntime) -> Result<(), Fail> {
    assert_eq!(rt; Import::KIND, 1);
    let table = [
        ("H\tDKK\n", 0, 0),
        ("H\tJPY\nP\t0\t1\n", 1, 2),
        ("H\tJPY\nP\t4095\t1\n", 4096, 2),
        ("H\tJPY\nT\t0\t4095\t1\n", 4096, 4),
        ("H\tJPY\nT\t4095\t0\t1\n", 4096, 4),
        ("H\tJPY\nP\t3\t1\nT\t9\t8\t1\nP\t7\t1\n", 10, 8),
    ];
    for (text, reach, length) in table {
        let measures = Measures {
            reach,
            length,
            kind: 1,
        };
        measured(&rt, &mut import(rt.alloc(), text)?, measures);
    }
    Ok(())
}
