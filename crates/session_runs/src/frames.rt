//! Frames of a session, whose bodies are collected from the top level.

ghost use Rattle.std.specs.Prelude.{◌≡◌, ℕ, ◌<◌, ◌^◌, true, Some, OnOk, OnErr};
ghost use Rattle.mesh_model.specs.Meshes.{MeshLists};
ghost use Rattle.round_model.specs.Views.{ViewSeen};
ghost use Rattle.script_model.specs.declared.orders.Order.TheVariants as orders;
ghost use Rattle.session_model.specs.Sessions.{printed_once};
ghost use Rattle.session_locks.specs.Sessions.{IsSession, IsDone, with_state};
ghost use Rattle.text_model.specs.Lines.{begins_line};
ghost use Rattle.shared_sessions.specs.SharedSeats.{HasSeat, IsResting};
ghost use Rattle.shared_sessions.specs.FrameLines.{ShowsNext};
ghost use Rattle.shared_sessions.specs.SessionLines.{ServesLine};
ghost use Rattle.session_runs.specs.SetupWorlds.{setup_world};

use crate::body_list::BodyList;
use crate::collecting::collect;
use grid_vertex::NoMemory;
use session_locks::Session;
use shared_sessions::{finish_round, write_round};
use std::alloc::Global;
use std::sync::Wait;
use tier_levels::{Ground, TopLock};
use token_table::{Naming, SessionSeat, TokenTable};
use view_outside::{Gate, GatePoint};

// Appends the text of the session's next frame, whose round is done. A call that is refused leaves the text as it was.
fn show_round<'m, N: Naming, F: Ground, R: Wait>(
    rt: &R,
    alloc: Global,
    top: &TopLock<'m, N, F>,
    table: &TokenTable,
    session: &Session<'_>,
    seat: SessionSeat,
    out: &mut Vec<u8>,
) -> (SessionSeat, Result<(), NoMemory>)
    requires table { table.now ≡ N.table }
    requires pass { HasSeat table.now seat session.now }
    requires mesh { session.now.mesh.index ≡ N.setup.mesh }
    requires done { IsDone session.now.state }
    requires few { session.now.state.frames < 2 ^ 63 }
    requires begins { begins_line out.old.items ≡ true }
    ensures seat { result.0 ≡ seat }
    ensures shows { OnOk result.1
        (ShowsNext (setup_world N.setup session.now.mesh) session.now.number session.now.state
        out.old.items out.new.items) }
    ensures ended { OnOk result.1 (begins_line out.new.items ≡ true) }
    ensures err { OnErr result.1 (out.new.items ≡ out.old.items) }
{
    let _number = session.number();
    let Some(round) = session.round() else {
        unreachable!()
    };
    let patches = round.patches();
    let mut bodies = match BodyList::with_room(alloc, patches.len()) {
        Ok(bodies) => bodies,
        Err(error) => return (seat, Err(error)),
    };
    let (seat, collected) = collect(rt, top, table, seat, patches, &mut bodies);
    match collected {
        Ok(()) => (seat, write_round(alloc, session, bodies.as_slice(), out)),
        Err(error) => (seat, Err(error)),
    }
}

// Shows the session's next frame, whose round is done, counts it, and passes the gate.
fn show_done<'m, N: Naming, F: Ground, R: Wait, G: Gate>(
    rt: &R,
    alloc: Global,
    top: &TopLock<'m, N, F>,
    table: &TokenTable,
    gate: &G,
    session: &mut Session<'_>,
    seat: SessionSeat,
    out: &mut Vec<u8>,
) -> (SessionSeat, Result<(), NoMemory>)
    requires table { table.now ≡ N.table }
    requires pass { HasSeat table.now seat session.old }
    requires mesh { session.old.mesh.index ≡ N.setup.mesh }
    requires done { IsDone session.old.state }
    requires few { session.old.state.frames < 2 ^ 63 }
    requires begins { begins_line out.old.items ≡ true }
    ensures seat { result.0 ≡ seat }
    ensures pass { HasSeat table.now seat session.new }
    ensures facts { IsSession session.new }
    ensures shows { OnOk result.1
        (ShowsNext (setup_world N.setup session.old.mesh) session.old.number session.old.state
        out.old.items out.new.items
        × (session.new ≡ with_state session.old (printed_once session.old.state))) }
    ensures ended { OnOk result.1 (begins_line out.new.items ≡ true) }
    ensures err { OnErr result.1 (out.new.items ≡ out.old.items) }
{
    let number = session.number();
    let (seat, shown) = show_round(rt, alloc, top, table, session, seat, out);
    match shown {
        Ok(()) => {
            session.printed();
            gate.pass(GatePoint::FrameDone(number));
            let _number = session.number();
            (seat, Ok(()))
        }
        Err(error) => (seat, Err(error)),
    }
}

/// The session goes through its round, and its frame's text is appended. Condition: the seat is the session's, and a
/// view is set. After NoMemory the tries that were made stay, and the text is as it was.
pub(crate) fn show_frame<'m, N: Naming, F: Ground, R: Wait, G: Gate>(
    rt: &R,
    alloc: Global,
    top: &TopLock<'m, N, F>,
    table: &TokenTable,
    gate: &G,
    number: u32,
    session: &mut Session<'_>,
    seat: SessionSeat,
    out: &mut Vec<u8>,
) -> (SessionSeat, Result<(), NoMemory>)
    requires table { table.now ≡ N.table }
    requires pass { HasSeat table.now seat session.old }
    requires mesh { session.old.mesh.index ≡ N.setup.mesh }
    requires number { session.old.number ≡ number }
    requires rests { IsResting session.old.state }
    requires view { (view : ViewSeen) × (session.old.state.view ≡ Some view) }
    requires few { session.old.state.frames < 2 ^ 63 }
    requires begins { begins_line out.old.items ≡ true }
    ensures pass { HasSeat table.now result.0 session.new }
    ensures number { result.0.own.number ≡ seat.own.number }
    ensures ok { OnOk result.1
        ((mesh : MeshLists) → session.old.mesh ≡ mesh
        → ServesLine table.now (setup_world N.setup mesh) number (orders.Frame number) seat
        result.0 (Some session.old) (Some session.new) out.old.items out.new.items) }
    ensures ended { OnOk result.1 (begins_line out.new.items ≡ true) }
    ensures err { OnErr result.1 (out.new.items ≡ out.old.items) }
{
    let mut seat = seat;
    match finish_round(alloc, session, table, &mut seat, gate) {
        Ok(()) => show_done(rt, alloc, top, table, gate, session, seat, out),
        Err(error) => (seat, Err(error)),
    }
}
