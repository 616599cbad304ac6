//! One session of a served script, by its own thread.

ghost use Rattle.std.specs.Prelude.{◌≡◌, ◌<◌, ◌^◌, true, OnOk, OnErr};
ghost use Rattle.text_model.specs.Lines.{begins_line};
ghost use Rattle.frame_writer.specs.Appending.{Begins};
ghost use Rattle.token_words.specs.Sessions.{IsSession as IsNumber};
ghost use Rattle.token_table.specs.Seats.{IsIdle};
ghost use Rattle.shared_sessions.specs.SharedSeats.{HasSeatOr};
ghost use Rattle.shared_sessions.specs.SessionLines.{ServesLines};
ghost use Rattle.shared_sessions.specs.Stages.{AreOwnLines};
ghost use Rattle.session_runs.specs.SetupWorlds.{setup_world};

use crate::serving::{Served, serve_order};
use accepted_mesh::Mesh;
use grid_vertex::NoMemory;
use script_model::{Line, Order};
use session_locks::Session;
use shared_sessions::free_seat;
use std::alloc::Global;
use std::sync::Wait;
use tier_levels::{BoardLock, Ground, TopLock};
use token_table::{Naming, SessionSeat, TokenTable};
use view_outside::Gate;

// Serves the lines, one after another.
fn serve_lines<'m, 'k, N: Naming, F: Ground, R: Wait, G: Gate>(
    rt: &R,
    alloc: Global,
    mesh: &'k Mesh,
    top: &TopLock<'m, N, F>,
    table: &TokenTable,
    board: &BoardLock<N>,
    gate: &G,
    number: u32,
    lines: &[Line],
    mut seat: SessionSeat,
    out: &mut Vec<u8>,
) -> Served<'k>
    requires table { table.now ≡ N.table }
    requires mesh { mesh.now.lists.index ≡ N.setup.mesh }
    requires session { IsNumber number }
    requires lines { AreOwnLines number lines.now }
    requires idle { IsIdle table.now seat }
    requires begins { begins_line out.old.items ≡ true }
    ensures pass { HasSeatOr table.now result.seat result.session }
    ensures number { result.seat.own.number ≡ seat.own.number }
    ensures ok { OnOk result.end
        (ServesLines (setup_world N.setup mesh.now.lists) lines.now seat.own.tries
        result.seat.own.tries out.old.items out.new.items) }
    ensures ended { OnOk result.end (begins_line out.new.items ≡ true) }
    ensures err { OnErr result.end (Begins out.old.items out.new.items) }
{
    let mut session = None;
    for line in lines {
        let order = order_of(line);
        let Served {
            session: left,
            seat: back,
            end,
        } = serve_order(
            rt, alloc, mesh, top, table, board, gate, number, order, session, seat, out,
        );
        session = left;
        seat = back;
        if let Err(error) = end {
            return Served {
                session,
                seat,
                end: Err(error),
            };
        }
    }
    Served {
        session,
        seat,
        end: Ok(()),
    }
}

// What the line orders.
fn order_of(line: &Line) -> &Order
    ensures order { result.now ≡ line.now.order }
    ensures small { line.now.number < 2 ^ 32 }
{
    let _number = line.number;
    &line.order
}

// Gives back all that an open session uses.
fn free_left(session: Option<Session<'_>>, table: &TokenTable, mut seat: SessionSeat) -> SessionSeat
    requires { HasSeatOr table.now seat session }
    ensures idle { IsIdle table.now result }
    ensures number { result.own.number ≡ seat.own.number }
    ensures tries { result.own.tries ≡ seat.own.tries }
{
    if let Some(mut session) = session {
        let _unlocks = free_seat(&mut session, table, &mut seat);
    }
    seat
}

/// Serves the lines of a session: each does what the line orders, and its text is appended. A view is posted on the
/// board before the session takes it, and a closed session's is taken off. Before each try the gate is passed with
/// `LockTry`, and behind each frame's text with `FrameDone`; no lock is held meanwhile. Waits for the locks of the top
/// level and of the board.
///
/// The session is 1 to 64, and the lines are its own in a script that is served; the mesh and the table are those that
/// the run began with, and nothing stands in the text's last line yet. The seat uses no patch before, and none behind,
/// also after NoMemory; what stood in the text still stands there then.
pub fn run_session<'m, N: Naming, F: Ground, R: Wait, G: Gate>(
    rt: &R,
    alloc: Global,
    mesh: &Mesh,
    number: u32,
    lines: &[Line],
    seat: SessionSeat,
    top: &TopLock<'m, N, F>,
    table: &TokenTable,
    board: &BoardLock<N>,
    gate: &G,
    out: &mut Vec<u8>,
) -> (SessionSeat, Result<(), NoMemory>)
    requires number { IsNumber number }
    requires table { table.now ≡ N.table }
    requires mesh { mesh.now.lists.index ≡ N.setup.mesh }
    requires idle { IsIdle table.now seat }
    requires lines { AreOwnLines number lines.now }
    requires begins { begins_line out.old.items ≡ true }
    ensures idle { IsIdle table.now result.0 }
    ensures number { result.0.own.number ≡ seat.own.number }
    ensures ok { OnOk result.1
        (ServesLines (setup_world N.setup mesh.now.lists) lines.now seat.own.tries
        result.0.own.tries out.old.items out.new.items) }
    ensures ended { OnOk result.1 (begins_line out.new.items ≡ true) }
    ensures err { OnErr result.1 (Begins out.old.items out.new.items) }
{
    let Served { session, seat, end } = serve_lines(
        rt, alloc, mesh, top, table, board, gate, number, lines, seat, out,
    );
    let seat = free_left(session, table, seat);
    (seat, end)
}
