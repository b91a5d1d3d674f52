// A total over a range of cells: what it holds.

#[derive(Clone, Copy, Drop)]
pub struct Total {
    pub(crate) first: u16,
    pub(crate) last: u16,
    pub(crate) target: u16,
    pub(crate) step: TotalStep,
}

// Kept between two calls, and named by the definitions, so that it is an enum and no closure.
#[derive(Clone, Copy)]
pub enum TotalStep {
    // The cell to read next, and the sum of those before it.
    Read { at: u16, sum: i64 },
    // The sum of all.
    Write { sum: i64 },
    Done,
}

// The range runs backward, or a cell lies above the highest. One refusal alone has no variants to number.
#[derive(Clone, Copy, Debug, PartialEq)]
pub struct TotalRefusal;
