// A log: the used entries at the front of a lent stretch.
ghost use Rattle.std.specs.Prelude.{◌≡◌, not, take};
ghost use Rattle.lane.specs.Logs.{holds};
ghost use Rattle.logs.specs.Entered.{found, laid};

use super::entry::Entry;

// The place of the cell's entry, if the log has one.
pub fn find<E: Entry>(log: &[E], cell: u32) -> Option<usize>
    ensures { result ≡ found E.Entry.cell cell log.now }
{
    // The place has a name, so that what is answered can be told from how it is found.
    let at = log.iter().position(|entry| entry.cell_of() == cell)?;
    Some(at)
}

// Enters into the log of so many entries at the front of the stretch: in the place of its cell's entry, or behind the last.
// Answers whether it is a new one, as the insert of a set does.
pub fn enter<E: Entry>(stretch: &mut [E], used: usize, entry: E) -> bool
    ensures laid { stretch.new ≡ laid E.Entry.cell entry (take used stretch.old) stretch.old }
    ensures grown { result ≡ not (holds E.Entry.cell (E.Entry.cell entry) (take used stretch.old)) }
{
    let end = used.min(stretch.len());
    let found = find(&stretch[..end], entry.cell_of());
    let at = found.unwrap_or(end);
    // By `get_mut`: tried, and `returns-clause-laid` stayed open: what the stretch holds after a write to the place lent.
    if at < stretch.len() {
        stretch[at] = entry;
    }
    at == end
}
