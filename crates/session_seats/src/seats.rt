//! Seats of sessions.

use crate::seat::{Seat, no_seats};
use accepted_mesh::Mesh;
use grid_vertex::NoMemory;
use std::alloc::Global;
use std::marker::Model;
use token_words::PlainTokens;

mod boards;
mod frames;
mod stepping;

/// A seat for each session, over one mesh. Each call asks that the words are those of the open sessions, and leaves
/// them so.
#[derive(Drop)]
pub struct Seats<'m> {
    mesh: &'m Mesh,
    // Session 1's first.
    seats: Vec<Option<Seat<'m>>>,
}

impl<'m> Model for Seats<'m> {
    ghost use Rattle.session_seats.specs.Seats.{SeatsSeen};

    ghost Value = { SeatsSeen };

    ghost use Rattle.session_seats.specs.SeatParts.{seats_view, AreSeatsInside};

    ghost view = { seats_view };

    ghost invariant = { AreSeatsInside };
}

impl<'m> Seats<'m> {
    ghost use Rattle.std.specs.Prelude.{◌≡◌, length, None, Some, is_some, IfOk, OnOk, OnErr};
    ghost use Rattle.script_model.specs.declared.orders.Order.TheVariants as orders;
    ghost use Rattle.token_words.specs.Changes.{SetAt};
    ghost use Rattle.token_words.specs.Sessions.{IsSession};
    ghost use Rattle.token_words.specs.PlainTokens.{words_seen};
    ghost use Rattle.token_words.specs.declared.session_sets.TheConstants.{SESSIONS as GREATEST};
    ghost use Rattle.run_model.specs.Lines.{DidOpen};
    ghost use Rattle.session_seats.specs.Seats.{at_seat, empty_seats, AreSeated, seat_told};
    ghost use Rattle.session_model.specs.Told.{just_opened};
    ghost use Rattle.session_seats.specs.Orders.{DoesOrder};

    /// Seats over the mesh, where no session is open.
    pub fn new(alloc: Global, mesh: &'m Mesh) -> Result<Seats<'m>, NoMemory>
        ensures { IfOk result (λ seats. seats ≡ empty_seats mesh.now.lists) }
    {
        let seats = no_seats(alloc)?;
        Ok(Seats { mesh, seats })
    }

    /// Tells whether the session is open. The session is 1 to 64.
    pub fn is_open(&self, session: u32) -> bool
        requires { IsSession session }
        ensures value { result ≡ is_some (at_seat self.now.sessions session) }
        ensures facts { length self.now.sessions ≡ GREATEST }
    {
        self.seats[session as usize - 1].is_some()
    }

    /// Opens the session, without a view and without a round. The session is 1 to 64; condition: it isn't open.
    ///
    /// A refused call leaves the seats as they were.
    pub fn open(&mut self, alloc: Global, words: &PlainTokens, session: u32) -> Result<(), NoMemory>
        requires number { IsSession session }
        requires closed { at_seat self.old.sessions session ≡ None }
        requires seated { AreSeated self.old.mesh (words_seen words.now) self.old.sessions }
        ensures does { OnOk result
            (DoesOrder (orders.Open session) (DidOpen session) (words_seen words.now) self.old
            (words_seen words.now) self.new) }
        ensures seated { AreSeated self.new.mesh (words_seen words.now) self.new.sessions }
        ensures told { OnOk result
            (SetAt (seat_told self.old.sessions) session (Some just_opened)
            (seat_told self.new.sessions)) }
        ensures mesh { self.new.mesh ≡ self.old.mesh }
        ensures refused { OnErr result (self.new ≡ self.old) }
    {
        let seat = Seat::open(alloc, self.mesh, words, session)?;
        self.seats[session as usize - 1] = Some(seat);
        Ok(())
    }
}
