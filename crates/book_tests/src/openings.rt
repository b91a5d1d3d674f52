// When a book is not opened, and what an opening leaves.
use super::plans::LENGTHS;
use super::shelf::{Lengths, Shelf, filled, holds, lay, open_on};
use body::Total;
use book::Book;
use lane::OpenRefusal;
use lane::OpenRefusal::{Amount, Cells, Helpers, Journal, Marks, Number};
use std::alloc::Global;
use std::process::Abort;
use std::test::Fail;

// Written out, and not taken from the program that is tested.
const LIMIT: i64 = 1_000_000_000_000_000;

const BEYOND: i64 = 1_000_000_000_000_001;

// An opening that is tried: how many cells, and the amount in each; how long the other lists are; the helpers, the number, and
// the refusal. Its lengths stand one by one, so that a row tells in a line what differs from a good opening.
#[derive(Clone, Copy)]
struct Opening {
    cells: usize,
    amount: i64,
    marks: usize,
    reads: usize,
    writes: usize,
    journal: usize,
    helpers: u32,
    number: u32,
    refusal: Option<OpenRefusal>,
}

const GOOD: Opening = Opening {
    cells: 4,
    amount: 0,
    marks: 2,
    reads: 64,
    writes: 32,
    journal: 4,
    helpers: 1,
    number: 0,
    refusal: None,
};

// Wrong in all but its cells.
const WRONG: Opening = Opening {
    cells: 4,
    amount: BEYOND,
    marks: 0,
    reads: 0,
    writes: 0,
    journal: 65537,
    helpers: 1,
    number: 1,
    refusal: Some(Marks),
};

const OPENINGS: &[Opening] = &[
    // Everything is wrong, and from row to row one thing less.
    Opening {
        cells: 0,
        amount: 0,
        refusal: Some(Cells),
        ..WRONG
    },
    Opening {
        cells: 4097,
        refusal: Some(Cells),
        ..WRONG
    },
    WRONG,
    Opening {
        marks: 1025,
        ..WRONG
    },
    Opening {
        marks: 2,
        refusal: Some(Helpers),
        ..WRONG
    },
    Opening {
        amount: BEYOND,
        journal: 65537,
        number: 1,
        refusal: Some(Journal),
        ..GOOD
    },
    Opening {
        amount: BEYOND,
        number: 1,
        refusal: Some(Number),
        ..GOOD
    },
    Opening {
        amount: BEYOND,
        refusal: Some(Amount),
        ..GOOD
    },
    GOOD,
    // One thing alone.
    Opening {
        cells: 0,
        refusal: Some(Cells),
        ..GOOD
    },
    Opening {
        cells: 4097,
        refusal: Some(Cells),
        ..GOOD
    },
    Opening {
        marks: 0,
        refusal: Some(Marks),
        ..GOOD
    },
    Opening {
        marks: 1025,
        refusal: Some(Marks),
        ..GOOD
    },
    Opening {
        writes: 31,
        refusal: Some(Helpers),
        ..GOOD
    },
    Opening {
        reads: 63,
        refusal: Some(Helpers),
        ..GOOD
    },
    Opening {
        reads: 512,
        writes: 255,
        helpers: 8,
        refusal: Some(Helpers),
        ..GOOD
    },
    Opening {
        reads: 511,
        writes: 256,
        helpers: 8,
        refusal: Some(Helpers),
        ..GOOD
    },
    Opening {
        reads: 576,
        writes: 288,
        helpers: 9,
        refusal: Some(Helpers),
        ..GOOD
    },
    Opening {
        helpers: 4_294_967_295,
        refusal: Some(Helpers),
        ..GOOD
    },
    Opening {
        journal: 65537,
        refusal: Some(Journal),
        ..GOOD
    },
    Opening {
        number: 1,
        refusal: Some(Number),
        ..GOOD
    },
    Opening {
        number: 2_147_483_599,
        refusal: Some(Number),
        ..GOOD
    },
    Opening {
        number: 2_147_483_600,
        refusal: Some(Number),
        ..GOOD
    },
    Opening {
        number: 4_294_967_294,
        refusal: Some(Number),
        ..GOOD
    },
    Opening {
        amount: BEYOND,
        refusal: Some(Amount),
        ..GOOD
    },
    Opening {
        amount: -BEYOND,
        refusal: Some(Amount),
        ..GOOD
    },
    Opening {
        cells: 1,
        amount: BEYOND,
        refusal: Some(Amount),
        ..GOOD
    },
    // The least and the most that is opened.
    Opening {
        cells: 1,
        marks: 1,
        reads: 0,
        writes: 0,
        journal: 0,
        helpers: 0,
        ..GOOD
    },
    Opening {
        cells: 4096,
        amount: LIMIT,
        marks: 1024,
        reads: 512,
        writes: 256,
        journal: 65536,
        helpers: 8,
        number: 2_147_483_598,
        ..GOOD
    },
    Opening {
        amount: -LIMIT,
        reads: 600,
        writes: 300,
        helpers: 8,
        number: 2,
        ..GOOD
    },
];

// Two books cannot be compared, so that of an answer the refusal alone is.
fn answer(lists: &mut Shelf, helpers: u32, number: u32) -> Option<OpenRefusal> {
    let opened: Result<Book<Total>, OpenRefusal> = open_on(lists, 1, helpers, number);
    opened.err()
}

// All marks become 0 where the book is opened, and else are left; and nothing else is changed.
fn opens(rt: &impl Abort, heap: Global, opening: &Opening) -> Result<(), Fail> {
    let lengths = Lengths {
        marks: opening.marks,
        reads: opening.reads,
        writes: opening.writes,
        journal: opening.journal,
    };
    let cells = filled(heap, opening.amount, opening.cells)?;
    let mut lists = lay(heap, cells.as_slice(), lengths)?;
    let marks = match opening.refusal {
        Some(_) => lists.marks.as_slice().to_vec(heap)?,
        None => filled(heap, 0, opening.marks)?,
    };
    assert_eq!(rt;
        answer(&mut lists, opening.helpers, opening.number),
        opening.refusal
    );
    holds(
        rt,
        &lists,
        cells.as_slice(),
        marks.as_slice(),
        &[],
        "after the opening",
    );
    Ok(())
}

#[test]
fn refusals(rt: HostRuntime) -> Result<(), Fail> {
    let heap = rt.alloc();
    for opening in OPENINGS {
        opens(&rt, heap, opening)?;
    }
    Ok(())
}

// Where only the last cell is beyond the limit.
#[test]
fn last_amount(rt: HostRuntime) -> Result<(), Fail> {
    let heap = rt.alloc();
    let mut lists = lay(heap, &[0, LIMIT, -LIMIT, BEYOND], LENGTHS)?;
    assert_eq!(rt; answer(&mut lists, 8, 0), Some(Amount));
    let mut lists = lay(heap, &[0, LIMIT, -LIMIT, LIMIT], LENGTHS)?;
    assert_eq!(rt; answer(&mut lists, 8, 0), None);
    Ok(())
}
