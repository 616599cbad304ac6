//! Steps of a session at its seat.

ghost use Rattle.std.specs.Prelude.{◌≡◌, OnOk, OnErr, IfOk};
ghost use Rattle.script_model.specs.declared.orders.Order.TheVariants as orders;
ghost use Rattle.token_words.specs.Changes.{Stays};
ghost use Rattle.token_words.specs.PlainTokens.{words_seen};
ghost use Rattle.run_model.specs.Lines.{DidStep, DidFree};
ghost use Rattle.session_seats.specs.Seats.{AreSeated, IsOpen, HasView, seat_told};
ghost use Rattle.session_seats.specs.SeatChanges.{KeepsWords};
ghost use Rattle.session_seats.specs.Orders.{DoesOrder, ReachesSeats, StopsStep, StopsRound, FinishesRound, FreesUses};

use crate::Stepped;
use crate::seats::Seats;
use grid_vertex::NoMemory;
use std::alloc::Global;
use token_words::PlainTokens;

impl<'m> Seats<'m> {
    /// The session takes one step. Condition: it is open and has a view.
    ///
    /// NoMemory comes only where a round was to begin: there is none then, and the session uses nothing.
    pub fn step(
        &mut self,
        alloc: Global,
        words: &mut PlainTokens,
        session: u32,
    ) -> Result<Stepped, NoMemory>
        requires view { HasView self.old.sessions session }
        requires seated { AreSeated self.old.mesh (words_seen words.old) self.old.sessions }
        ensures does { IfOk result
            (λ did.
            DoesOrder (orders.Step session) (DidStep session did) (words_seen words.old) self.old
            (words_seen words.new) self.new) }
        ensures none { OnErr result
            (ReachesSeats (words_seen words.old) self.old (words_seen words.new) self.new) }
        ensures stops { OnErr result
            (StopsStep session (words_seen words.old) self.old (words_seen words.new) self.new) }
        ensures seated { AreSeated self.new.mesh (words_seen words.new) self.new.sessions }
        ensures words { KeepsWords session (words_seen words.old) (words_seen words.new) }
        ensures told { Stays (seat_told self.old.sessions) (seat_told self.new.sessions) }
        ensures mesh { self.new.mesh ≡ self.old.mesh }
    {
        match &mut self.seats[session as usize - 1] {
            Some(seat) => seat.step(alloc, words),
            None => unreachable!(),
        }
    }

    /// The session takes steps until its round is done. Condition: it is open and has a view.
    ///
    /// NoMemory comes only where a round was to begin: the steps that were made stay, there is no round, and the session
    /// uses nothing.
    pub fn finish(
        &mut self,
        alloc: Global,
        words: &mut PlainTokens,
        session: u32,
    ) -> Result<(), NoMemory>
        requires view { HasView self.old.sessions session }
        requires seated { AreSeated self.old.mesh (words_seen words.old) self.old.sessions }
        ensures round { OnOk result
            (FinishesRound session (words_seen words.old) self.old (words_seen words.new)
            self.new) }
        ensures none { OnErr result
            (ReachesSeats (words_seen words.old) self.old (words_seen words.new) self.new) }
        ensures stops { OnErr result
            (StopsRound session (words_seen words.old) self.old (words_seen words.new) self.new) }
        ensures seated { AreSeated self.new.mesh (words_seen words.new) self.new.sessions }
        ensures words { KeepsWords session (words_seen words.old) (words_seen words.new) }
        ensures told { Stays (seat_told self.old.sessions) (seat_told self.new.sessions) }
        ensures mesh { self.new.mesh ≡ self.old.mesh }
    {
        match &mut self.seats[session as usize - 1] {
            Some(seat) => seat.finish(alloc, words),
            None => unreachable!(),
        }
    }

    /// The session gives back all that it uses, and returns how many old locks were among it. Condition: it is open.
    pub fn free(&mut self, words: &mut PlainTokens, session: u32) -> u64
        requires open { IsOpen self.old.sessions session }
        requires seated { AreSeated self.old.mesh (words_seen words.old) self.old.sessions }
        ensures does { DoesOrder (orders.Free session) (DidFree session result)
            (words_seen words.old) self.old (words_seen words.new) self.new }
        ensures seated { AreSeated self.new.mesh (words_seen words.new) self.new.sessions }
        ensures words { KeepsWords session (words_seen words.old) (words_seen words.new) }
        ensures told { Stays (seat_told self.old.sessions) (seat_told self.new.sessions) }
        ensures mesh { self.new.mesh ≡ self.old.mesh }
    {
        self.release(words, session)
    }

    /// The session gives back all that it uses.
    pub(super) fn release(&mut self, words: &mut PlainTokens, session: u32) -> u64
        requires open { IsOpen self.old.sessions session }
        requires seated { AreSeated self.old.mesh (words_seen words.old) self.old.sessions }
        ensures frees { FreesUses session (words_seen words.old) self.old result
            (words_seen words.new) self.new }
        ensures seated { AreSeated self.new.mesh (words_seen words.new) self.new.sessions }
        ensures words { KeepsWords session (words_seen words.old) (words_seen words.new) }
        ensures told { Stays (seat_told self.old.sessions) (seat_told self.new.sessions) }
        ensures mesh { self.new.mesh ≡ self.old.mesh }
    {
        match &mut self.seats[session as usize - 1] {
            Some(seat) => seat.free(words),
            None => unreachable!(),
        }
    }
}
