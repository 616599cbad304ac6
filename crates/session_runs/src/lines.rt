//! Lines of a session that the board of wishes is told of.

ghost use Rattle.std.specs.Prelude.{◌≡◌, true, Some, None, OnOk, OnErr};
ghost use Rattle.atomic_table.specs.Seated.{TableId};
ghost use Rattle.script_model.specs.declared.orders.Order.TheVariants as orders;
ghost use Rattle.text_model.specs.Lines.{begins_line};
ghost use Rattle.token_words.specs.Sessions.{IsSession as IsNumber};
ghost use Rattle.token_table.specs.Seats.{SessionSeen as SeatSeen, IsIdle};
ghost use Rattle.run_model.specs.Worlds.{World};
ghost use Rattle.shared_sessions.specs.SharedSeats.{HasSeat};
ghost use Rattle.shared_sessions.specs.SessionLines.{ServesLine};

use accepted_mesh::Mesh;
use grid_vertex::NoMemory;
use round_model::View;
use run_texts::{add_closed, add_view};
use session_locks::Session;
use shared_sessions::free_seat;
use std::alloc::Global;
use std::sync::Wait;
use tier_levels::BoardLock;
use token_table::{Naming, SessionSeat, TokenTable};

/// Posts the view, and then the session sees it, which ends its round; its line is appended. Condition: the number is
/// the session's, and the mesh is the one that the run began with. Without memory for the posting nothing changed,
/// without memory for the line the text is as it was.
pub(crate) fn set_view<N: Naming, R: Wait>(
    rt: &R,
    alloc: Global,
    mesh: &Mesh,
    board: &BoardLock<N>,
    number: u32,
    view: View,
    session: &mut Session<'_>,
    out: &mut Vec<u8>,
) -> Result<(), NoMemory>
    requires session { IsNumber number }
    requires mesh { mesh.now.lists.index ≡ N.setup.mesh }
    requires number { session.old.number ≡ number }
    ensures pass { (table : TableId) (seat : SeatSeen) → HasSeat table seat session.old
        → HasSeat table seat session.new }
    ensures ok { OnOk result
        ((table : TableId) (w : World) (seat : SeatSeen) → session.old.mesh ≡ w.mesh
        → HasSeat table seat session.old
        → ServesLine table w number (orders.View number view) seat seat (Some session.old)
        (Some session.new) out.old.items out.new.items) }
    ensures ended { OnOk result (begins_line out.new.items ≡ true) }
    ensures err { OnErr result (out.new.items ≡ out.old.items) }
{
    let _number = session.number();
    board.post(rt, alloc, mesh, number, &view)?;
    session.set_view(view);
    let _number = session.number();
    add_view(alloc, number, out)
}

/// Gives back all that the session uses, takes its view off the board, and ends it; its line is appended. Condition:
/// the seat is the session's. Without memory it ends all the same, and the text is as it was.
pub(crate) fn close<N: Naming, R: Wait>(
    rt: &R,
    alloc: Global,
    table: &TokenTable,
    board: &BoardLock<N>,
    number: u32,
    mut session: Session<'_>,
    mut seat: SessionSeat,
    out: &mut Vec<u8>,
) -> (SessionSeat, Result<(), NoMemory>)
    requires pass { HasSeat table.now seat session }
    requires session { IsNumber number }
    ensures idle { IsIdle table.now result.0 }
    ensures number { result.0.own.number ≡ seat.own.number }
    ensures ok { OnOk result.1
        ((w : World)
        → ServesLine table.now w number (orders.Close number) seat result.0 (Some session.entry) None
        out.old.items out.new.items) }
    ensures ended { OnOk result.1 (begins_line out.new.items ≡ true) }
    ensures err { OnErr result.1 (out.new.items ≡ out.old.items) }
{
    let unlocks = free_seat(&mut session, table, &mut seat);
    board.take_off(rt, number);
    let closed = add_closed(alloc, number, unlocks, out);
    (seat, closed)
}
