//! How much a script has at most.

/// The most bytes of a script.
pub const MOST_SCRIPT: u32 = 1_048_576;
