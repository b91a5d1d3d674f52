// Where a seated transaction stands: what its next step does, with what that step needs.

#[derive(Clone, Copy)]
pub enum Phase {
    // The master is to set the flag.
    Reserve,
    // The master is to see that the lane is free.
    MasterLook,
    // The master is to take the lane.
    Take,
    // The master is to do what its body asks.
    MasterRun,
    // The master has set the cell's mark, and is to set the cell.
    Put { cell: u32, amount: i64 },
    // A helper is to start an attempt.
    Begin,
    // A helper is to do what its body asks.
    Run,
    // A helper has loaded a cell, and is to check its mark.
    Check { cell: u32, loaded: i64 },
    // A helper in the queue is to become the first.
    Wait,
    // A helper is to see that the lane is free; with the number as of which its entries were found fresh, if they were.
    Look { checked: Option<u32> },
    // A helper that saw this number is to find its entry fresh, before it has the lane.
    Prevalidate { seen: u32, at: u32 },
    // A helper that saw this number is to take the lane.
    Swap { checked: Option<u32>, seen: u32 },
    // A helper in the lane is to find its entry fresh.
    Validate { at: u32 },
    // A helper is to set the mark of the entry of its write log.
    Mark { at: u32 },
    // A helper is to set the cell of the entry of its write log.
    Cell { at: u32 },
    // A helper is to commit and give the lane back.
    Release,
    // A helper in the lane is to give it back with nothing done.
    LetGo,
    // A helper that is broken off is to leave the queue.
    Quit,
    // A helper that has committed is to leave the queue.
    Leave,
}

// How a helper with writes comes to its commit. A caller picks one by its number, so that it is no type parameter.
#[derive(Clone, Copy)]
pub enum Way {
    // Take the lane, then find all entries fresh.
    One,
    // Queue, find all entries fresh, take the lane; find them fresh again if the number has grown.
    Two,
    // Queue, find all entries fresh, and take the lane only if the number has not grown since.
    Three,
}
