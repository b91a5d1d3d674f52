// The most cells of a read log and of a write log.
pub const MOST_READS: u32 = 64;

pub const MOST_WRITES: u32 = 32;
