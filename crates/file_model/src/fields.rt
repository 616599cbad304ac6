//! The records of a patch file.

ghost use Rattle.std.specs.Prelude.{◌≡◌};
ghost use Rattle.file_model.specs.Tries.{is_odd};

use grid_vertex::Ball;

/// A node of the graph: the ball round its part of the surface, and how far its parent's surface
/// may be from its own, in the units of the points.
#[derive(Clone, Copy, Debug, PartialEq, Eq)]
pub struct Node {
    pub ball: Ball,
    pub error: u32,
}

/// An arc of the graph, which carries a patch: the nodes that it leads from and to, and how many
/// points and triangles its body has.
#[derive(Clone, Copy, Debug, PartialEq, Eq)]
pub struct PatchField {
    pub tail: u32,
    pub head: u32,
    pub points: u16,
    pub triangles: u16,
}

/// One answer to a try to lock a patch. It was granted exactly where the epoch is odd.
#[derive(Clone, Copy, Debug, PartialEq, Eq)]
pub struct Try {
    pub patch: u32,
    pub epoch: u32,
}

/// Tells whether the epoch grants a try: exactly the odd ones do.
pub fn is_granted(epoch: u32) -> bool
    ensures { result ≡ is_odd epoch }
{
    epoch % 2 == 1
}
