// What a step tells the body of its seat. Nothing is a case, and no option around the others: a match has one level.

#[derive(Clone, Copy)]
pub enum Told {
    Nothing,
    // To begin anew, in an attempt with this start.
    Restarted(u32),
    // The amount that it asked for in the cell.
    Handed(u32, i64),
    // That its write of the amount to the cell was taken.
    Taken(u32, i64),
}
