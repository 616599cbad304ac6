//! The ranges of a view's numbers.

/// How far from 0 a coordinate of an eye is at most.
pub const EYE_REACH: u32 = 2_097_152;

/// The greatest focal number.
pub const GREATEST_FOCAL: u32 = 65_536;

/// The greatest threshold.
pub const GREATEST_THRESHOLD: u32 = 65_536;
