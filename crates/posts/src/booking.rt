// Books an import as the master of a new book, alone.
use super::refusal::BookingRefusal;
use body::Import;
use book::{Book, Lists};
use lane::Answer;

const MASTER: u32 = 0;

const MASTERS_WAY: u32 = 0;

const TAG: u32 = 7;

// An import that is seated asks at most 999 times. The master takes two steps for a write and one for a read, three before
// the first and one behind the last.
const MOST_STEPS: u32 = 2_002;

// Books the import in a book over the lists, and answers how many records are used.
pub(crate) fn book_import(lists: &mut Lists<'_>, import: Import) -> Result<usize, BookingRefusal> {
    let mut book = Book::open(0, lists, 0, 0)?;
    book.seat(MASTER, MASTERS_WAY, TAG, import)?;
    // Bounded, since a loop has to be proved to end.
    for _ in 0..MOST_STEPS {
        if let Answer::Committed(_) = book.step(lists, MASTER)? {
            break;
        }
    }
    Ok(book.status().used)
}
