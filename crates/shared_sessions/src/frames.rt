//! The text of a session's next frame.

ghost use Rattle.std.specs.Prelude.{◌≡◌, ◌<◌, ◌^◌, true, Some, map, OnOk, OnErr};
ghost use Rattle.std.specs.Arc.{arc_value};
ghost use Rattle.round_model.specs.Refiners.{Refining, cut_patches};
ghost use Rattle.session_locks.specs.Sessions.{IsDone};
ghost use Rattle.text_model.specs.Lines.{begins_line};
ghost use Rattle.frame_writer.specs.Frames.{AreBodiesOf, AddsFrame};
ghost use Rattle.run_model.specs.Lines.{frame_with};

use frame_writer::frame_text;
use grid_vertex::NoMemory;
use patch_file::Body;
use session_locks::Session;
use std::alloc::Global;
use std::sync::Arc;

/// Appends the text of the session's next frame, with the bodies of its patches. Condition: the session's round is
/// done, and it printed fewer than 2^63 frames. A call that is refused leaves the text as it was.
pub fn write_round(
    alloc: Global,
    session: &Session<'_>,
    bodies: &[Arc<Body>],
    out: &mut Vec<u8>,
) -> Result<(), NoMemory>
    requires done { IsDone session.now.state }
    requires few { session.now.state.frames < 2 ^ 63 }
    requires begins { begins_line out.old.items ≡ true }
    requires bodies { (r : Refining) → session.now.state.round ≡ Some r
        → AreBodiesOf (cut_patches r) (map arc_value bodies.now) }
    ensures ok { OnOk result
        ((r : Refining) → session.now.state.round ≡ Some r
        → AddsFrame out.old.items out.new.items
        (frame_with (map arc_value bodies.now) session.now.number session.now.state r)) }
    ensures ended { OnOk result (begins_line out.new.items ≡ true) }
    ensures err { OnErr result (out.new.items ≡ out.old.items) }
{
    let Some(round) = session.round() else {
        unreachable!()
    };
    let number = session.number();
    let frame = session.frames() + 1;
    let patches = round.patches();
    frame_text(
        alloc,
        number,
        frame,
        round.cut(),
        round.tries(),
        patches,
        bodies,
        out,
    )
}
