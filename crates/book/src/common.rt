// What the seats of a book share, beside its cells and marks.
use queue::Queue;

#[derive(Drop)]
pub(crate) struct Common {
    // The counter word: the number in 31 bits, and the flag.
    pub number: u32,
    pub flag: bool,
    pub paused: bool,
    pub queue: Queue,
}
