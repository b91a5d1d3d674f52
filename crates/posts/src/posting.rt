// Posts an import text: checks it, books it and prints the journal, or prints why not.
ghost use Rattle.std.specs.Prelude.{IfOk, string_bytes};
ghost use Rattle.posts.specs.Posts.{Posts};

use super::booking::book_import;
use super::printing::{print_lines, print_refusal};
use body::Import;
use book::Lists;
use imports::check;
use journal::Record;
use lane::Written;
use std::alloc::{AllocError, Global};

const CELLS: usize = 8;

const MARKS: usize = 8;

const RECORDS: usize = 1_000;

// What an unused record holds.
const UNUSED: Record = Record::Change {
    number: 0,
    cell: 0,
    amount: 0,
};

// The contract says what is answered for a text that the check refuses, and that every call returns. Of a text that is
// admitted it does not yet say which lines are answered; the table in posts_tests stands in.
pub fn post(heap: Global, text: Vec<u8>) -> Result<String, AllocError>
    ensures { IfOk result (λ out. Posts text.items (string_bytes out)) }
{
    match check(text) {
        Ok(checked) => post_import(heap, Import::new(checked)),
        Err(fault) => print_refusal(heap, &fault),
    }
}

// Books an import on cells that hold 0.
fn post_import(heap: Global, import: Import) -> Result<String, AllocError> {
    let mut cells = [0i64; CELLS];
    let mut marks = [0u32; MARKS];
    let mut reads: [u32; 0] = [];
    let mut writes: [Written; 0] = [];
    let mut journal = [UNUSED; RECORDS];
    let mut lists = Lists {
        cells: &mut cells,
        marks: &mut marks,
        reads: &mut reads,
        writes: &mut writes,
        journal: &mut journal,
    };
    match book_import(&mut lists, import) {
        Ok(used) => print_lines(heap, &journal, used),
        Err(refusal) => print_refusal(heap, &refusal),
    }
}
