//! How much a driver's lines have at most.

/// The most bytes of a line.
pub const MOST_LINE: u32 = 4_096;

/// The most lines that are answered; 2^62, so that no count of a run overflows.
pub const MOST_LINES: u64 = 4_611_686_018_427_387_904;
