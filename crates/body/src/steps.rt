// A script of reads and writes: what it holds.

#[derive(Clone, Copy, Debug, PartialEq)]
pub enum ScriptStep {
    Read { cell: u32 },
    // Puts a fixed amount into a cell.
    Put { cell: u32, amount: i64 },
    // Carries the amount read last to a cell; 0 before any.
    Carry { cell: u32 },
}

#[derive(Drop)]
pub struct Script {
    pub(crate) steps: Vec<ScriptStep>,
    // Every cell named lies below this: the highest one, plus 1, or 0 where none is.
    pub(crate) reach: u32,
    // How many steps are done.
    pub(crate) done: usize,
    // The amount read last.
    pub(crate) carried: i64,
}

#[derive(Clone, Copy, Debug, PartialEq)]
pub enum ScriptRefusal {
    // More than 16 steps.
    TooMany = 71,
    // A cell above the highest, or an amount beyond the limit.
    BadStep = 72,
}
