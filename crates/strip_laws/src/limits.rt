//! How many columns a strip may have.

/// The most columns of a strip.
pub const MOST_COLUMNS: u32 = 16_384;
