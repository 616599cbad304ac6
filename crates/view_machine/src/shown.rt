//! Frames that are shown in place of being written.

ghost use Rattle.std.specs.Prelude.{◌≡◌, ◌≤◌, ◌+◌, ◌*◌, length, map};
ghost use Rattle.std.specs.Arc.{arc_value};
ghost use Rattle.frame_writer.specs.Frames.{AreBodiesOf, triangles_in};

use patch_body::Body;
use patch_file::Try;
use std::marker::Model;
use std::sync::Arc;

/// A frame with the bodies of its patches, which it shares with the top tier. It stays whole when its session lets them
/// go and the tier evicts them.
#[derive(Drop)]
pub struct ShownFrame {
    session: u32,
    number: u64,
    cut: Vec<u32>,
    tries: Vec<Try>,
    patches: Vec<u32>,
    bodies: Vec<Arc<Body>>,
}

impl Model for ShownFrame {
    ghost use Rattle.std.specs.Prelude.{◌≤◌, length, map};
    ghost use Rattle.std.specs.Arc.{arc_value};
    ghost use Rattle.frame_writer.specs.Frames.{AreBodiesOf};
    ghost use Rattle.view_machine.specs.ShownSeen.{ShownSeen};

    ghost Value = { ShownSeen };

    ghost view = { λ frame.
        record {
          session = frame.session;
          number = frame.number;
          cut = frame.cut.items;
          tries = frame.tries.items;
          patches = frame.patches.items;
          bodies = map arc_value frame.bodies.items;
        } };

    ghost invariant = { λ frame.
        AreBodiesOf frame.patches.items (map arc_value frame.bodies.items)
        × (length frame.patches.items ≤ 65536) };
}

// How many triangles so many bodies have.
fn triangles_of(bodies: &[Arc<Body>]) -> u64
    requires { length bodies.now ≤ 65536 }
    ensures { result ≡ length (triangles_in (map arc_value bodies.now)) }
{
    let mut count = 0;
    for body in bodies {
        count += u64::from(body.triangle_count());
    }
    count
}

impl ShownFrame {
    pub(crate) fn new(
        session: u32,
        number: u64,
        cut: Vec<u32>,
        tries: Vec<Try>,
        patches: Vec<u32>,
        bodies: Vec<Arc<Body>>,
    ) -> ShownFrame
        requires bodies { AreBodiesOf patches.items (map arc_value bodies.items) }
        requires few { length patches.items ≤ 65536 }
        ensures session { result.session ≡ session }
        ensures number { result.number ≡ number }
        ensures cut { result.cut ≡ cut.items }
        ensures tries { result.tries ≡ tries.items }
        ensures patches { result.patches ≡ patches.items }
        ensures bodies { result.bodies ≡ map arc_value bodies.items }
    {
        ShownFrame {
            session,
            number,
            cut,
            tries,
            patches,
            bodies,
        }
    }

    /// Whose frame it is.
    pub fn session(&self) -> u32
        ensures { result ≡ self.now.session }
    {
        self.session
    }

    /// The frame's number; a session's first is 1.
    pub fn number(&self) -> u64
        ensures { result ≡ self.now.number }
    {
        self.number
    }

    /// The nodes of the cut.
    pub fn cut(&self) -> &[u32]
        ensures { result.now ≡ self.now.cut }
    {
        &self.cut
    }

    /// The round's tries and their answers, in their order.
    pub fn tries(&self) -> &[Try]
        ensures { result.now ≡ self.now.tries }
    {
        &self.tries
    }

    /// The patches.
    pub fn patches(&self) -> &[u32]
        ensures { result.now ≡ self.now.patches }
    {
        &self.patches
    }

    /// The bodies of the patches, in their order.
    pub fn bodies(&self) -> &[Arc<Body>]
        ensures value { map arc_value result.now ≡ self.now.bodies }
        ensures patches { AreBodiesOf self.now.patches self.now.bodies }
    {
        &self.bodies
    }

    /// How many triangles the bodies have.
    pub fn triangles(&self) -> u64
        ensures { result ≡ length (triangles_in self.now.bodies) }
    {
        triangles_of(&self.bodies)
    }
}
