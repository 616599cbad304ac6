//! What is printed of the samples.

/// The base of the square.
pub const SQUARE_BASE: &str =
    "frame 0 1 nodes 1 patches 1 triangles 2 open 4\ncut 0\ntries\npatches 0\n0 0 0 4 0 0 4 4 0\n0 0 0 4 4 0 0 4 0\n";

/// The square with both its nodes shown.
pub const SQUARE_FAN: &str =
    "frame 0 1 nodes 2 patches 1 triangles 4 open 4\ncut 0 1\ntries 1:1\npatches 1\n0 0 0 4 0 0 2 2 0\n4 0 0 4 4 0 2 2 0\n4 4 0 0 4 0 2 2 0\n0 4 0 0 0 0 2 2 0\n";

/// The square as an accepted file.
pub const SQUARE_ACCEPTED: &str = "accepted nodes 3 patches 2 triangles 6 open 4\n";
