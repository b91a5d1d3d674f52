// Amounts at the limit and beyond it, written out and not taken from the program that is tested.

pub const LIMIT: i64 = 1_000_000_000_000_000;

pub const BEYOND: i64 = 1_000_000_000_000_001;

pub const LEAST: i64 = i64::MIN;

pub const MOST: i64 = i64::MAX;

pub const WITHIN: [i64; 7] = [LIMIT, -LIMIT, LIMIT - 1, 1 - LIMIT, 1, -1, 0];

pub const OUTSIDE: [i64; 6] = [BEYOND, -BEYOND, MOST, LEAST, LIMIT * 2, LIMIT * -2];
