//! Lines of a session that need nothing but its seat.

ghost use Rattle.std.specs.Prelude.{◌≡◌, ◌≤◌, true, length, Some, None, IfOk, OnOk, OnErr};
ghost use Rattle.atomic_table.specs.Seated.{TableId};
ghost use Rattle.script_model.specs.declared.orders.Order.TheVariants as orders;
ghost use Rattle.text_model.specs.Lines.{begins_line};
ghost use Rattle.token_table.specs.Seats.{SessionSeen, IsIdle};
ghost use Rattle.run_model.specs.Worlds.{World};
ghost use Rattle.shared_sessions.specs.SharedSeats.{HasSeat};
ghost use Rattle.shared_sessions.specs.SessionLines.{ServesLine};

use crate::seats::free_seat;
use accepted_mesh::Mesh;
use grid_vertex::NoMemory;
use run_texts::{add_freed, add_open};
use session_locks::Session;
use std::alloc::Global;
use token_table::{SessionSeat, TokenTable};

/// Session `number` opens over the mesh, by any seat that is idle at a table with a word for each patch, and its line
/// is appended. A call that is refused leaves the text as it was.
pub fn open_session<'m>(
    alloc: Global,
    mesh: &'m Mesh,
    number: u32,
    out: &mut Vec<u8>,
) -> Result<Session<'m>, NoMemory>
    ensures ok { IfOk result
        (λ session.
        (table : TableId) (w : World) (seat : SessionSeen) → w.mesh ≡ mesh.now.lists
        → IsIdle table seat → length mesh.now.lists.index.fields ≤ table.words
        → ServesLine table w number (orders.Open number) seat seat None (Some session)
        out.old.items out.new.items) }
    ensures ended { OnOk result (begins_line out.new.items ≡ true) }
    ensures err { OnErr result (out.new.items ≡ out.old.items) }
{
    let session = Session::open(alloc, mesh, number)?;
    let _number = session.number();
    add_open(alloc, number, out)?;
    Ok(session)
}

/// Gives back all that the session uses, and appends its line. Condition: the seat is the session's, and the number
/// too. Without memory it is given back all the same, and the text stays as it was.
pub fn free_session(
    alloc: Global,
    session: &mut Session<'_>,
    table: &TokenTable,
    seat: &mut SessionSeat,
    number: u32,
    out: &mut Vec<u8>,
) -> Result<(), NoMemory>
    requires pass { HasSeat table.now seat.old session.old }
    requires number { session.old.number ≡ number }
    ensures pass { HasSeat table.now seat.new session.new }
    ensures number { seat.new.own.number ≡ seat.old.own.number }
    ensures ok { OnOk result
        ((w : World) → session.old.mesh ≡ w.mesh
        → ServesLine table.now w number (orders.Free number) seat.old seat.new
        (Some session.old) (Some session.new) out.old.items out.new.items) }
    ensures ended { OnOk result (begins_line out.new.items ≡ true) }
    ensures err { OnErr result (out.new.items ≡ out.old.items) }
{
    let unlocks = free_seat(session, table, seat);
    add_freed(alloc, number, unlocks, out)
}
