// How much a book may have.
pub(crate) const MOST_CELLS: usize = 4096;

pub(crate) const MOST_MARKS: usize = 1024;

pub(crate) const MOST_HELPERS: u32 = 8;

// The seat of the master, and one for each helper.
pub(crate) const SEATS: usize = MOST_HELPERS as usize + 1;

// The entries of a helper's read log, and of its write log.
pub(crate) const MOST_READS: usize = lane::MOST_READS as usize;

pub(crate) const MOST_WRITES: usize = lane::MOST_WRITES as usize;

pub(crate) const MOST_RECORDS: usize = 65_536;

// No book is opened, and no transaction is seated, from this number on.
pub(crate) const TOP_NUMBER: u32 = 2_147_483_600;
