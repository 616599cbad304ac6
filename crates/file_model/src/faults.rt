//! What can be wrong with a patch file.

/// The first fault of a byte string that is no patch file. `docs/FORMAT.md` has the order of the
/// units in which faults are looked for.
#[derive(Clone, Copy, Debug, PartialEq, Eq)]
pub enum FileFault {
    /// The file doesn't begin with `BMTG`.
    Magic,
    /// The version is neither 1 nor 2; the version found.
    Version(u16),
    /// The two bytes after the version aren't 0.
    NotZero,
    /// The number of nodes is out of 2 to 65,536; the number found.
    NodeCount(u32),
    /// The number of patches is out of 1 to 65,536; the number found.
    PatchCount(u32),
    /// The file ends before its last unit does; the offset of its end.
    Truncated(u64),
    /// A byte follows the last body; the declared length plus 1.
    Trailing(u64),
    /// A node's centre, radius or error is out of its range; the node.
    NodeOutOfGrid(u32),
    /// A patch leads from or to a node that isn't there; the patch.
    ArcEnd(u32),
    /// A patch has no points or no triangles; the patch.
    BodyCount(u32),
    /// A point is out of the grid; its patch and its place in the body.
    PointOutOfGrid(u32, u32),
    /// A corner names no point; the patch, the triangle and the first such corner.
    CornerIndex(u32, u32, u32),
    /// Two corners of a triangle are equal points; the patch and the triangle.
    Flat(u32, u32),
    /// No offset of a body of version 2 is 0 on an axis; the patch and the least such axis.
    Loose(u32, u32),
}
