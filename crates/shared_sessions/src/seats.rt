//! What a session does with its seat: it goes through a round, and it gives back all that it uses.

ghost use Rattle.std.specs.Prelude.{◌≡◌, true, false, Some};
ghost use Rattle.round_model.specs.Views.{ViewSeen};
ghost use Rattle.session_locks.specs.Sessions.{IsSession};
ghost use Rattle.session_locks.specs.Taken.{TakesSteps, TakesFreeSteps};
ghost use Rattle.token_table.specs.Seats.{IsIdle};
ghost use Rattle.serve_model.specs.ServedLines.{no_epochs};
ghost use Rattle.shared_sessions.specs.SharedSeats.{HasSeat};

use crate::gated_words::GatedWords;
use grid_vertex::NoMemory;
use session_locks::Session;
use std::alloc::Global;
use token_table::{SessionSeat, SharedWords, TokenTable};
use view_outside::Gate;

/// Takes steps until the round is done, and passes the gate before each try. Condition: the seat is the session's, and
/// a view is set. After NoMemory the steps that were made stay, and nothing is locked or in flight.
pub fn finish_round<G: Gate>(
    alloc: Global,
    session: &mut Session<'_>,
    table: &TokenTable,
    seat: &mut SessionSeat,
    gate: &G,
) -> Result<(), NoMemory>
    requires pass { HasSeat table.now seat.old session.old }
    requires view { (view : ViewSeen) × (session.old.state.view ≡ Some view) }
    ensures pass { HasSeat table.now seat.new session.new }
    ensures steps { TakesSteps false no_epochs true seat.old.own.tries seat.new.own.tries
        session.old result session.new }
    ensures facts { IsSession session.new }
    ensures number { seat.new.own.number ≡ seat.old.own.number }
{
    let number = session.number();
    let mut words = GatedWords {
        words: SharedWords { table },
        gate,
        session: number,
    };
    session.finish(alloc, &mut words, seat)
}

/// Gives back all that the session uses, and returns how many locks these were. Its view and its count of frames stay.
/// Condition: the seat is the session's.
pub fn free_seat(session: &mut Session<'_>, table: &TokenTable, seat: &mut SessionSeat) -> u64
    requires pass { HasSeat table.now seat.old session.old }
    ensures pass { HasSeat table.now seat.new session.new }
    ensures steps { TakesFreeSteps session.old result session.new }
    ensures facts { IsSession session.new }
    ensures number { seat.new.own.number ≡ seat.old.own.number }
    ensures tries { seat.new.own.tries ≡ seat.old.own.tries }
    ensures idle { IsIdle table.now seat.new }
{
    let mut words = SharedWords { table };
    session.free_all(&mut words, seat)
}
