//! Views of sessions, on the board too, and sessions that close.

ghost use Rattle.std.specs.Prelude.{◌≡◌, ◌^◌, ◌<◌, List, Some, None, OnOk, OnErr};
ghost use Rattle.script_model.specs.declared.orders.Order.TheVariants as orders;
ghost use Rattle.session_model.specs.Sessions.{SessionState, with_view};
ghost use Rattle.token_words.specs.Changes.{SetAt};
ghost use Rattle.token_words.specs.PlainTokens.{words_seen};
ghost use Rattle.token_words.specs.declared.entries.Entry.{Entry};
ghost use Rattle.wish_board.specs.Boards.{without_view};
ghost use Rattle.run_model.specs.Lines.{DidView, DidClose};
ghost use Rattle.session_seats.specs.Seats.{at_seat, with_seat, AreSeated, IsOpen, seat_told};
ghost use Rattle.session_model.specs.Told.{SessionTold, told_view};
ghost use Rattle.session_seats.specs.SeatChanges.{KeepsWords};
ghost use Rattle.session_seats.specs.Boards.{IsBoardFor, posted_on};
ghost use Rattle.session_seats.specs.Orders.{DoesPosting};

use crate::seats::Seats;
use grid_vertex::NoMemory;
use round_model::View;
use token_words::PlainTokens;
use wish_board::WishBoard;

impl<'m> Seats<'m> {
    /// Posts the session's view and sets it, which ends the round. Condition: the session is open, and views were
    /// posted or taken off fewer than 2^63 times.
    ///
    /// A refused call leaves the board and the seats as they were.
    pub fn set_view(
        &mut self,
        board: &mut WishBoard,
        session: u32,
        view: View,
    ) -> Result<(), NoMemory>
        requires open { IsOpen self.old.sessions session }
        requires board { IsBoardFor self.old.mesh board.old }
        requires few { board.old.version < 2 ^ 63 }
        ensures does { OnOk result
            ((words : List Entry) → AreSeated self.old.mesh words self.old.sessions
            → DoesPosting (orders.View session view) (DidView session) words self.old
            board.old.views board.old.version words self.new board.new.views board.new.version) }
        ensures posted { OnOk result
            (board.new ≡ posted_on board.old session view self.old.mesh) }
        ensures seated { (words : List Entry) → AreSeated self.old.mesh words self.old.sessions
            → AreSeated self.new.mesh words self.new.sessions }
        ensures told { OnOk result
            ((told : SessionTold) → seat_told self.old.sessions session ≡ Some told
            → SetAt (seat_told self.old.sessions) session (Some (told_view told view))
            (seat_told self.new.sessions)) }
        ensures mesh { self.new.mesh ≡ self.old.mesh }
        ensures board { IsBoardFor self.new.mesh board.new }
        ensures refused { OnErr result ((self.new ≡ self.old) × (board.new ≡ board.old)) }
    {
        board.post(self.mesh, session, &view)?;
        self.see(session, view);
        Ok(())
    }

    // The session sees this view from now on.
    fn see(&mut self, session: u32, view: View)
        requires { IsOpen self.old.sessions session }
        ensures { (s : SessionState) → at_seat self.old.sessions session ≡ Some s
            → self.new ≡ with_seat self.old session (Some (with_view view s)) }
    {
        match &mut self.seats[session as usize - 1] {
            Some(seat) => seat.session.set_view(view),
            None => unreachable!(),
        }
    }

    /// The session gives back all that it uses, its view is taken off, and it closes. Returns how many old locks
    /// were given back. Condition: the session is open, and views were posted or taken off fewer than 2^63 times.
    pub fn close(&mut self, words: &mut PlainTokens, board: &mut WishBoard, session: u32) -> u64
        requires open { IsOpen self.old.sessions session }
        requires seated { AreSeated self.old.mesh (words_seen words.old) self.old.sessions }
        requires board { IsBoardFor self.old.mesh board.old }
        requires few { board.old.version < 2 ^ 63 }
        ensures does { DoesPosting (orders.Close session) (DidClose session result)
            (words_seen words.old) self.old board.old.views board.old.version
            (words_seen words.new) self.new board.new.views board.new.version }
        ensures taken_off { board.new ≡ without_view board.old session }
        ensures seated { AreSeated self.new.mesh (words_seen words.new) self.new.sessions }
        ensures words { KeepsWords session (words_seen words.old) (words_seen words.new) }
        ensures told { SetAt (seat_told self.old.sessions) session None (seat_told self.new.sessions) }
        ensures mesh { self.new.mesh ≡ self.old.mesh }
        ensures board { IsBoardFor self.new.mesh board.new }
    {
        let unlocks = self.release(words, session);
        board.take_off(session);
        self.seats[session as usize - 1] = None;
        unlocks
    }
}
