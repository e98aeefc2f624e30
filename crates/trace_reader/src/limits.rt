//! How long a text may be.

/// The most bytes of a line, without its line feed and with its comment.
pub const MOST_BYTES: usize = 256;

/// The most lines of a text.
pub const MOST_LINES: usize = 16_777_216;

/// The most lines of a text whose steps are read one after the other: the line behind them has the last number that
/// fits.
pub const MOST_NUMBERED: usize = usize::MAX - 1;
