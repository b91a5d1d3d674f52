// How a book stands.

#[derive(Clone, Copy)]
pub struct Status {
    // The counter word: its number and its flag.
    pub number: u32,
    pub flag: bool,
    // Whether a pause stands.
    pub paused: bool,
    // How many records of the journal are used.
    pub used: usize,
    // The seats under way, with bit k for seat k, and how many they are.
    pub word: u32,
    pub count: u32,
    // Whether no seat is under way, told beside their count so that all is of one moment.
    pub quiet: bool,
}
