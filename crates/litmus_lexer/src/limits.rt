//! The limits of a text. Code and specs read each of them here.

/// How many bytes a text may have.
pub const MOST_BYTES: usize = 65536;

/// How many characters the name of a test may have.
pub const LONGEST_TITLE: usize = 128;

/// How many characters the name of a location may have.
pub const LONGEST_LOCATION: usize = 32;

/// How many locations a text may name.
pub const MOST_LOCATIONS: usize = 64;

/// How many threads a test may have.
pub const MOST_THREADS: u8 = 16;

/// The number of the last thread; the first is 0.
pub const LAST_THREAD: u8 = 15;

/// How many rows a table may have.
pub const MOST_ROWS: u16 = 1024;

/// How many atoms a condition may have.
pub const MOST_ATOMS: u16 = 256;

/// How many parentheses of a condition may stand in one another.
pub const MOST_DEPTH: u8 = 64;

/// The last register; the first is 0.
pub const LAST_REGISTER: u8 = 31;

/// Each value is below it.
pub const VALUE_BOUND: u32 = 1 << 31;

/// The largest number that `ori` takes.
pub const MOST_ORI: u32 = 2047;
