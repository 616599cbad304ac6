//! How much a patch file has at most.

/// The most nodes of a patch file.
pub const MOST_NODES: u32 = 65_536;

/// The most patches of a patch file.
pub const MOST_PATCHES: u32 = 65_536;

/// The most points of a patch, and the most triangles.
pub const MOST_IN_PATCH: u32 = 65_535;
