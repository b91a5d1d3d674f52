// What one step does. A step changes at most one thing that the seats share.
use super::answer::Answer;
use super::phase::Phase;
use super::told::Told;

#[derive(Clone, Copy)]
pub struct Step {
    // The seat's next phase, or none where it becomes idle.
    pub next: Option<Phase>,
    pub answer: Answer,
    pub told: Told,
    pub log: LogChange,
    pub effect: Effect,
}

// What a step does to the logs of its seat. This and what it does to what the seats share are enums and no closures, since the
// definitions of a step name them.
#[derive(Clone, Copy)]
pub enum LogChange {
    Same,
    // Both are emptied.
    Emptied,
    // The cell is in the read log.
    Noted(u32),
    // The cell is in the write log with this amount.
    Entered(u32, i64),
}

// What a step does to what the seats share.
#[derive(Clone, Copy)]
pub enum Effect {
    Unchanged,
    FlagSet,
    // The number grows by 1 and the flag is cleared.
    LaneTaken,
    // The mark of the cell becomes the number.
    MarkSet(u32),
    CellSet(u32, i64),
    // The number grows by 1.
    NumberRaised,
    // The number falls by 1.
    NumberLowered,
    // The seat enters the queue's end.
    QueueJoined,
    // The seat leaves the queue.
    QueueLeft,
}
