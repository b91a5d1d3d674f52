// What a log has for a cell, and its entries by their place.
ghost use Rattle.std.specs.Prelude.{◌≡◌, ◌++◌, slice_index, slice_index_or};
ghost use Rattle.lane.specs.Logs.{cells_of, holds, lookup as looked-up, no_entry};

use super::entry::Entry;
use super::log::find;
use lane::Written;

// Whether a log has the cell.
pub fn has<E: Entry>(log: &[E], cell: u32) -> bool
    ensures { result ≡ holds E.Entry.cell cell log.now }
{
    find(log, cell).is_some()
}

// The amount that a write log has for the cell, if it has one.
pub fn lookup(log: &[Written], cell: u32) -> Option<i64>
    ensures { result ≡ looked-up cell log.now }
{
    log.iter()
        .find(|entry| entry.cell == cell)
        .map(|entry| entry.amount)
}

// The entry of a write log at the place. Behind its end, which no step in a run meets, an entry of 0 for cell 0.
pub fn written_at(log: &[Written], at: u32) -> Written
    ensures { result ≡ slice_index_or log.now at no_entry }
{
    log.get(at as usize).copied().unwrap_or_default()
}

// The cell at the place in the order of validation: the read log, and then the write log.
pub fn cell_at(reads: &[u32], writes: &[Written], at: u32) -> u32
    ensures { result ≡ slice_index (reads.now ++ cells_of writes.now) at }
{
    // By `as`, since the bound is proved; `try_from` would want an answer that cannot come.
    match reads.get(at as usize) {
        Some(cell) => *cell,
        None => written_at(writes, at - reads.len() as u32).cell,
    }
}
