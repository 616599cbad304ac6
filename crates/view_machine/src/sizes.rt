//! How large frames are.

/// How many nodes a frame has in its cut, and how many patches, triangles and open edges.
#[derive(Clone, Copy, Debug, PartialEq, Eq)]
pub struct FrameSize {
    pub nodes: u64,
    pub patches: u64,
    pub triangles: u64,
    pub open_edges: u64,
}
