// An entry of a write log: what the cell is to get.

#[derive(Clone, Copy, Default)]
pub struct Written {
    pub cell: u32,
    pub amount: i64,
}
