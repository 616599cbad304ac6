//! Frames of a session at its seat.

ghost use Rattle.std.specs.Prelude.{◌≡◌, ◌^◌, ◌<◌, List, length, Some};
ghost use Rattle.session_model.specs.Sessions.{SessionState, printed_once, counted_from};
ghost use Rattle.token_words.specs.Changes.{SetAt};
ghost use Rattle.token_words.specs.declared.entries.Entry.{Entry};
ghost use Rattle.token_words.specs.declared.session_sets.TheConstants.{SESSIONS};
ghost use Rattle.session_seats.specs.Seats.{at_seat, with_seat, AreSeated, HasRound, IsOpen, IsDoneAt, seat_told};
ghost use Rattle.session_model.specs.Told.{SessionTold, told_from, one_frame_more};

use crate::seats::Seats;
use cut_refiner::Refiner;

impl<'m> Seats<'m> {
    /// The round of the session. Condition: there is one.
    pub fn round(&self, session: u32) -> &Refiner<'m>
        requires { HasRound self.now.sessions session }
        ensures { (s : SessionState) → at_seat self.now.sessions session ≡ Some s
            → s.round ≡ Some result.now }
    {
        match &self.seats[session as usize - 1] {
            Some(seat) => match seat.session.round() {
                Some(round) => round,
                None => unreachable!(),
            },
            None => unreachable!(),
        }
    }

    /// How many frames the session printed. Condition: it is open.
    pub fn frames(&self, session: u32) -> u64
        requires { IsOpen self.now.sessions session }
        ensures value { (s : SessionState) → at_seat self.now.sessions session ≡ Some s
            → result ≡ s.frames }
        ensures facts { length self.now.sessions ≡ SESSIONS }
    {
        match &self.seats[session as usize - 1] {
            Some(seat) => seat.session.frames(),
            None => unreachable!(),
        }
    }

    /// Counts a frame of the session, and marks its round as printed. Condition: the session is open, its round is
    /// done and wasn't printed yet, and fewer than 2^63 frames were printed.
    pub fn printed(&mut self, session: u32)
        requires done { IsDoneAt self.old.sessions session }
        requires few { (s : SessionState) → at_seat self.old.sessions session ≡ Some s
            → s.frames < 2 ^ 63 }
        ensures printed { (s : SessionState) → at_seat self.old.sessions session ≡ Some s
            → self.new ≡ with_seat self.old session (Some (printed_once s)) }
        ensures seated { (words : List Entry) → AreSeated self.old.mesh words self.old.sessions
            → AreSeated self.new.mesh words self.new.sessions }
        ensures told { (told : SessionTold) → seat_told self.old.sessions session ≡ Some told
            → SetAt (seat_told self.old.sessions) session (Some (one_frame_more told))
            (seat_told self.new.sessions) }
    {
        match &mut self.seats[session as usize - 1] {
            Some(seat) => seat.session.printed(),
            None => unreachable!(),
        }
    }

    /// The session counts its frames on from this number. Condition: it is open.
    pub fn count_from(&mut self, session: u32, frames: u64)
        requires { IsOpen self.old.sessions session }
        ensures counted { (s : SessionState) → at_seat self.old.sessions session ≡ Some s
            → self.new ≡ with_seat self.old session (Some (counted_from frames s)) }
        ensures seated { (words : List Entry) → AreSeated self.old.mesh words self.old.sessions
            → AreSeated self.new.mesh words self.new.sessions }
        ensures told { (told : SessionTold) → seat_told self.old.sessions session ≡ Some told
            → SetAt (seat_told self.old.sessions) session (Some (told_from told frames))
            (seat_told self.new.sessions) }
        ensures facts { length self.old.sessions ≡ SESSIONS }
    {
        match &mut self.seats[session as usize - 1] {
            Some(seat) => seat.session.count_from(frames),
            None => unreachable!(),
        }
    }
}
