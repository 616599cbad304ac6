//! Frames that are shown: their bodies are handed out in place of a text.

ghost use Rattle.std.specs.Prelude.{◌≡◌, ◌^◌, ◌<◌, Some, IfOk, OnOk, OnErr};
ghost use Rattle.script_model.specs.declared.orders.Order.TheVariants as orders;
ghost use Rattle.session_model.specs.DoneRounds.{HasDone};
ghost use Rattle.session_model.specs.Sessions.{SessionState};
ghost use Rattle.session_model.specs.Told.{SessionTold, one_frame_more};
ghost use Rattle.session_seats.specs.Seats.{at_seat, HasView, IsDoneAt, seat_told};
ghost use Rattle.token_words.specs.Changes.{SetAt, Stays};
ghost use Rattle.view_machine.specs.LineEnds.{frames_at};
ghost use Rattle.view_machine.specs.Machines.{world_of, run_state, KeepsPlace};
ghost use Rattle.view_machine.specs.OwnStops.{StopsIn};
ghost use Rattle.view_machine.specs.ShownFrames.{IsRoundShown, ShowsFrame};

use crate::machines::Machine;
use crate::machines::frames::shared_bodies;
use crate::shown::ShownFrame;
use grid_vertex::NoMemory;
use std::alloc::Global;
use view_outside::Store;

impl<'a, S: Store> Machine<'a, S> {
    // The frame that the session's round shows, as the next of its frames.
    fn shown_of_round(&self, alloc: Global, session: u32) -> Result<ShownFrame, NoMemory>
        requires done { IsDoneAt self.now.seats.sessions session }
        requires few { frames_at self.now.seats.sessions session < 2 ^ 63 }
        ensures { IfOk result
            (λ shown.
            (s : SessionState) (done : HasDone s) → at_seat self.now.seats.sessions session ≡ Some s
            → IsRoundShown (world_of self.now) self.now.chain.tiers session s done.round shown) }
    {
        let round = self.seats.round(session);
        let number = self.seats.frames(session) + 1;
        let shown = round.patches();
        let bodies = shared_bodies(alloc, &self.chain, shown)?;
        let cut = Vec::from_slice(alloc, round.cut())?;
        let tries = Vec::from_slice(alloc, round.tries())?;
        let patches = Vec::from_slice(alloc, shown)?;
        Ok(ShownFrame::new(session, number, cut, tries, patches, bodies))
    }

    /// As `frame`, but the frame is handed out with its bodies in place of a text. Each body is in the top tier, and is
    /// its file's.
    pub fn show(&mut self, alloc: Global, session: u32) -> Result<ShownFrame, NoMemory>
        requires view { HasView self.old.seats.sessions session }
        requires few { frames_at self.old.seats.sessions session < 2 ^ 63 }
        ensures line { IfOk result
            (ShowsFrame (world_of self.old) session (run_state self.old) (run_state self.new)
            self.new.chain.tiers) }
        ensures none { OnErr result
            (StopsIn (world_of self.old) (run_state self.old) (orders.Frame session)
            (run_state self.new)) }
        ensures told { OnOk result
            ((told : SessionTold) → seat_told self.old.seats.sessions session ≡ Some told
            → SetAt (seat_told self.old.seats.sessions) session (Some (one_frame_more told))
            (seat_told self.new.seats.sessions)) }
        ensures unprinted { OnErr result
            (Stays (seat_told self.old.seats.sessions) (seat_told self.new.seats.sessions)) }
        ensures place { KeepsPlace self.old self.new }
        ensures board { self.new.board ≡ self.old.board }
        ensures chain { self.new.chain ≡ self.old.chain }
    {
        self.finish_session(alloc, session)?;
        let shown = self.shown_of_round(alloc, session)?;
        self.print_session(session);
        Ok(shown)
    }
}
