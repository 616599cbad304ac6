//! One order of a session, whether it is open or not.

ghost use Rattle.std.specs.Prelude.{◌≡◌, ◌<◌, ◌≤◌, ◌^◌, true, length, None, Some, OnOk, OnErr};
ghost use Rattle.atomic_table.specs.Seated.{TableId};
ghost use Rattle.script_model.specs.declared.stages.SessionStage.TheVariants.{Closed};
ghost use Rattle.text_model.specs.Lines.{begins_line};
ghost use Rattle.token_words.specs.Sessions.{IsSession as IsNumber};
ghost use Rattle.token_table.specs.Seats.{IsIdle};
ghost use Rattle.run_model.specs.Worlds.{World};
ghost use Rattle.run_model.specs.Stages.{stage_of, viewed_stage};
ghost use Rattle.shared_sessions.specs.SharedSeats.{HasSeatOr, IsSeated, IsSeatedOr, IsResting, state_of};
ghost use Rattle.shared_sessions.specs.SessionLines.{ServesLine, frames_in};
ghost use Rattle.shared_sessions.specs.Stages.{MayServe};
ghost use Rattle.session_runs.specs.SetupWorlds.{setup_world};

use crate::frames::show_frame;
use crate::lines::{close, set_view};
use accepted_mesh::Mesh;
use grid_vertex::NoMemory;
use script_model::Order;
use session_locks::Session;
use shared_sessions::{free_session, open_session};
use std::alloc::Global;
use std::sync::Wait;
use tier_levels::{BoardLock, Ground, TopLock};
use token_table::{Naming, SessionSeat, TokenTable};
use view_outside::Gate;

/// What orders leave: the session, if it is open, its seat, and whether there was memory.
pub(crate) struct Served<'m> {
    pub session: Option<Session<'m>>,
    pub seat: SessionSeat,
    pub end: Result<(), NoMemory>,
}

// Serves an order of the session, which is open.
fn serve_open<'m, 'k, N: Naming, F: Ground, R: Wait, G: Gate>(
    rt: &R,
    alloc: Global,
    mesh: &'k Mesh,
    top: &TopLock<'m, N, F>,
    table: &TokenTable,
    board: &BoardLock<N>,
    gate: &G,
    order: &Order,
    mut session: Session<'k>,
    mut seat: SessionSeat,
    out: &mut Vec<u8>,
) -> Served<'k>
    requires table { table.now ≡ N.table }
    requires mesh { mesh.now.lists.index ≡ N.setup.mesh }
    requires session { IsNumber session.number }
    requires seated { IsSeated table.now mesh.now.lists session.number seat session }
    requires rests { IsResting session.state }
    requires may { MayServe session.number (viewed_stage session.state.view) order.now }
    requires few { session.state.frames < 2 ^ 63 }
    requires begins { begins_line out.old.items ≡ true }
    ensures pass { HasSeatOr table.now result.seat result.session }
    ensures number { result.seat.own.number ≡ seat.own.number }
    ensures ok { OnOk result.end
        (ServesLine table.now (setup_world N.setup mesh.now.lists) session.entry.number order.now seat
        result.seat (Some session.entry) result.session out.old.items out.new.items) }
    ensures ended { OnOk result.end (begins_line out.new.items ≡ true) }
    ensures err { OnErr result.end (out.new.items ≡ out.old.items) }
{
    let number = session.number();
    match order {
        Order::View(_, view) => {
            let end = set_view(rt, alloc, mesh, board, number, *view, &mut session, out);
            Served {
                session: Some(session),
                seat,
                end,
            }
        }
        Order::Frame(_) => {
            let open = &mut session;
            let (seat, end) = show_frame(rt, alloc, top, table, gate, number, open, seat, out);
            Served {
                session: Some(session),
                seat,
                end,
            }
        }
        Order::Free(_) => {
            let end = free_session(alloc, &mut session, table, &mut seat, number, out);
            Served {
                session: Some(session),
                seat,
                end,
            }
        }
        Order::Close(_) => {
            let (seat, end) = close(rt, alloc, table, board, number, session, seat, out);
            Served {
                session: None,
                seat,
                end,
            }
        }
        Order::Open(_) | Order::Step(_) | Order::Turn(_) | Order::Settle | Order::Status => {
            unreachable!()
        }
    }
}

// Opens the session, which is what its first order says.
fn serve_closed<'k>(
    alloc: Global,
    mesh: &'k Mesh,
    number: u32,
    order: &Order,
    seat: SessionSeat,
    out: &mut Vec<u8>,
) -> Served<'k>
    requires { MayServe number Closed order.now }
    ensures seat { result.seat ≡ seat }
    ensures ok { OnOk result.end
        ((table : TableId) (w : World) → w.mesh ≡ mesh.now.lists → IsIdle table seat
        → length mesh.now.lists.index.fields ≤ table.words
        → ServesLine table w number order.now seat seat None result.session out.old.items
        out.new.items) }
    ensures ended { OnOk result.end (begins_line out.new.items ≡ true) }
    ensures none { OnErr result.end (result.session ≡ None) }
    ensures err { OnErr result.end (out.new.items ≡ out.old.items) }
{
    if let Order::Open(_) = order {
        match open_session(alloc, mesh, number, out) {
            Ok(session) => Served {
                session: Some(session),
                seat,
                end: Ok(()),
            },
            Err(error) => Served {
                session: None,
                seat,
                end: Err(error),
            },
        }
    } else {
        unreachable!()
    }
}

/// Serves an order of the session. Condition: the order may come where the session stands, and the seat is its own.
/// Without memory the text is as it was, and the seat is still the session's, if that is open.
pub(crate) fn serve_order<'m, 'k, N: Naming, F: Ground, R: Wait, G: Gate>(
    rt: &R,
    alloc: Global,
    mesh: &'k Mesh,
    top: &TopLock<'m, N, F>,
    table: &TokenTable,
    board: &BoardLock<N>,
    gate: &G,
    number: u32,
    order: &Order,
    session: Option<Session<'k>>,
    seat: SessionSeat,
    out: &mut Vec<u8>,
) -> Served<'k>
    requires table { table.now ≡ N.table }
    requires mesh { mesh.now.lists.index ≡ N.setup.mesh }
    requires session { IsNumber number }
    requires stands { IsSeatedOr table.now mesh.now.lists number seat session }
    requires may { MayServe number (stage_of (state_of session)) order.now }
    requires few { frames_in (state_of session) < 2 ^ 63 }
    requires begins { begins_line out.old.items ≡ true }
    ensures pass { HasSeatOr table.now result.seat result.session }
    ensures number { result.seat.own.number ≡ seat.own.number }
    ensures ok { OnOk result.end
        (ServesLine table.now (setup_world N.setup mesh.now.lists) number order.now seat
        result.seat session.entry result.session out.old.items out.new.items) }
    ensures ended { OnOk result.end (begins_line out.new.items ≡ true) }
    ensures err { OnErr result.end (out.new.items ≡ out.old.items) }
{
    match session {
        Some(session) => serve_open(
            rt, alloc, mesh, top, table, board, gate, order, session, seat, out,
        ),
        None => serve_closed(alloc, mesh, number, order, seat, out),
    }
}
