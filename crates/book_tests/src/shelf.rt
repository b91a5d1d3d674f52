// The lists of a book, and calls that they are lent to.
use body::Body;
use book::{Book, Lists};
use journal::Record;
use lane::{Answer, OpenRefusal, StepRefusal, Written};
use std::alloc::{AllocError, Global};
use std::process::Abort;
use std::test::Fail;

// A record that no call makes.
pub const BLANK: Record = Record::Change {
    number: 77,
    cell: 77,
    amount: 77,
};

#[derive(Drop)]
pub struct Shelf {
    pub cells: Vec<i64>,
    pub marks: Vec<u32>,
    pub reads: Vec<u32>,
    pub writes: Vec<Written>,
    pub journal: Vec<Record>,
}

// How long the lists are, without the cells.
#[derive(Clone, Copy)]
pub struct Lengths {
    pub marks: usize,
    pub reads: usize,
    pub writes: usize,
    pub journal: usize,
}

// So many items that are all the same.
pub(crate) fn filled<T: Copy>(heap: Global, item: T, count: usize) -> Result<Vec<T>, AllocError> {
    vec![in heap; item; count]
}

// Marks of 9, and logs and a journal with what no call makes.
pub(crate) fn lay(heap: Global, cells: &[i64], lengths: Lengths) -> Result<Shelf, AllocError> {
    let none = Written {
        cell: 77,
        amount: 77,
    };
    Ok(Shelf {
        cells: cells.to_vec(heap)?,
        marks: filled(heap, 9, lengths.marks)?,
        reads: filled(heap, 77, lengths.reads)?,
        writes: filled(heap, none, lengths.writes)?,
        journal: filled(heap, BLANK, lengths.journal)?,
    })
}

fn lend(shelf: &mut Shelf) -> Lists<'_> {
    Lists {
        cells: shelf.cells.as_mut_slice(),
        marks: shelf.marks.as_mut_slice(),
        reads: shelf.reads.as_mut_slice(),
        writes: shelf.writes.as_mut_slice(),
        journal: shelf.journal.as_mut_slice(),
    }
}

pub(crate) fn open_on<B: Body + Drop>(
    shelf: &mut Shelf,
    name: u32,
    helpers: u32,
    number: u32,
) -> Result<Book<B>, OpenRefusal> {
    let mut lists = lend(shelf);
    Book::open(name, &mut lists, helpers, number)
}

pub(crate) fn step_on<B: Body + Drop>(
    book: &mut Book<B>,
    shelf: &mut Shelf,
    seat: u32,
) -> Result<Answer, StepRefusal> {
    let mut lists = lend(shelf);
    book.step(&mut lists, seat)
}

// The way is a number, as `seat` takes it.
pub(crate) fn sits<B: Body + Drop>(
    book: &mut Book<B>,
    seat: u32,
    way: u32,
    tag: u32,
    body: B,
) -> Result<(), Fail> {
    book.seat(seat, way, tag, body)
        .map_err(|_| Fail::new("the body is refused"))
}

// The cells, the marks, and the records that are used. Behind these nothing was recorded. A failure tells by these words which
// run it is.
pub(crate) fn holds(
    rt: &impl Abort,
    shelf: &Shelf,
    cells: &[i64],
    marks: &[u32],
    records: &[Record],
    words: &str,
) {
    assert!(rt; shelf.cells.as_slice() == cells, "the cells {words}");
    assert!(rt; shelf.marks.as_slice() == marks, "the marks {words}");
    let journal = shelf.journal.as_slice();
    assert!(rt; journal.len() >= records.len(), "the journal {words}");
    let (used, unused) = journal.split_at(records.len());
    assert_eq!(rt; used, records, "{words}");
    assert!(rt; unused.iter().all(|record| *record == BLANK), "{words}");
}
