//! Why a file isn't accepted.

use file_model::FileFault;
use grid_vertex::Point;

/// The first fault of a patch file that is no accepted mesh. Each comes only where those before it
/// don't hold.
#[derive(Clone, Copy, Debug, PartialEq, Eq)]
pub enum DagFault {
    /// Every node has an incoming patch.
    NoRoot,
    /// Two nodes or more have no incoming patch; the two least.
    TwoRoots(u32, u32),
    /// Walks of any length end at the node; the least such node.
    Cycle(u32),
    /// The error of the patch's head is above its tail's, and the head is no sink; the least such patch.
    ErrorNotNested(u32),
    /// The ball of the patch's tail doesn't contain its head's, and the head is no sink; the least such
    /// patch.
    BallNotNested(u32),
    /// The nets of a node's incoming and outgoing triangles differ: the least such node, the least pair
    /// of points, the net that comes in and the one that goes out.
    Border(u32, Point, Point, i64, i64),
}

/// Why a file isn't accepted: it is no patch file, or its graph is no mesh.
#[derive(Clone, Copy, Debug, PartialEq, Eq)]
pub enum Refusal {
    File(FileFault),
    Dag(DagFault),
}
