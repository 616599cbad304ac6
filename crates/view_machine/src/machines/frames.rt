//! Frames of sessions. Nothing is read from the store for one: the top tier holds each patch that a done round shows.

ghost use Rattle.std.specs.Prelude.{◌≡◌, ℕ, ◌^◌, ◌<◌, List, All, Some, length, map, IfOk, OnOk, OnErr};
ghost use Rattle.std.specs.Arc.{arc_value};
ghost use Rattle.script_model.specs.declared.orders.Order.TheVariants as orders;
ghost use Rattle.session_model.specs.Sessions.{SessionState};
ghost use Rattle.session_model.specs.DoneRounds.{HasDone};
ghost use Rattle.text_model.specs.FrameText.{IsFrameText};
ghost use Rattle.token_words.specs.Changes.{SetAt, Stays};
ghost use Rattle.token_words.specs.declared.entries.Entry.{Entry};
ghost use Rattle.token_words.specs.declared.session_sets.TheConstants.{SESSIONS};
ghost use Rattle.run_model.specs.Lines.{DidFrame, Does, frame_of, top_body};
ghost use Rattle.session_seats.specs.Orders.{FinishesRound};
ghost use Rattle.session_seats.specs.Seats.{SeatsSeen, at_seat, HasView, IsDoneAt, seat_told};
ghost use Rattle.session_model.specs.Told.{SessionTold, one_frame_more};
ghost use Rattle.view_machine.specs.Machines.{world_of, run_state, state_in, KeepsPlace};
ghost use Rattle.view_machine.specs.OwnStops.{StopsIn};
ghost use Rattle.view_machine.specs.LineTells.{DoesLine};
ghost use Rattle.view_machine.specs.LineEnds.{frames_at};
ghost use Rattle.view_machine.specs.FrameLines.{IsAtTop};

use crate::machines::Machine;
use cache_chain::TierChain;
use frame_writer::frame_text;
use grid_vertex::NoMemory;
use patch_body::Body;
use std::alloc::Global;
use std::sync::Arc;
use view_outside::Store;

// The body of a patch that the top tier holds, shared with it.
fn shared_body<S: Store>(chain: &TierChain<S>, patch: u32) -> Result<Arc<Body>, NoMemory>
    requires { IsAtTop chain.now.mesh.lists.index.fields chain.now.tiers patch }
    ensures { IfOk result (λ body. arc_value body ≡ top_body chain.now.tiers patch) }
{
    match chain.top_body(patch) {
        Some(body) => Ok(body.clone()?),
        None => unreachable!(),
    }
}

// The bodies of patches that the top tier holds, in their order and shared with it.
pub(super) fn shared_bodies<S: Store>(
    alloc: Global,
    chain: &TierChain<S>,
    patches: &[u32],
) -> Result<Vec<Arc<Body>>, NoMemory>
    requires { All (IsAtTop chain.now.mesh.lists.index.fields chain.now.tiers) patches.now }
    ensures { IfOk result
        (λ bodies. map arc_value bodies.items ≡ map (top_body chain.now.tiers) patches.now) }
{
    let mut bodies = Vec::with_capacity(alloc, patches.len())?;
    for patch in patches {
        let body = shared_body(chain, *patch)?;
        bodies.push(body)?;
    }
    Ok(bodies)
}

impl<'a, S: Store> Machine<'a, S> {
    // The session takes steps until its round is done.
    pub(super) fn finish_session(&mut self, alloc: Global, session: u32) -> Result<(), NoMemory>
        requires { HasView self.old.seats.sessions session }
        ensures round { OnOk result
            (FinishesRound session self.old.words self.old.seats self.new.words self.new.seats) }
        ensures stops { StopsIn (world_of self.old) (run_state self.old) (orders.Frame session)
            (run_state self.new) }
        ensures mesh { self.new.seats.mesh ≡ self.old.seats.mesh }
        ensures told { Stays (seat_told self.old.seats.sessions) (seat_told self.new.seats.sessions) }
        ensures place { KeepsPlace self.old self.new }
        ensures board { self.new.board ≡ self.old.board }
        ensures chain { self.new.chain ≡ self.old.chain }
    {
        self.seats.finish(alloc, &mut self.words, session)
    }

    // The text of the frame that the session's round shows, as the next of its frames.
    fn frame_of_round(&self, alloc: Global, session: u32) -> Result<Vec<u8>, NoMemory>
        requires done { IsDoneAt self.now.seats.sessions session }
        requires few { frames_at self.now.seats.sessions session < 2 ^ 63 }
        ensures { IfOk result
            (λ text.
            (s : SessionState) (done : HasDone s) → at_seat self.now.seats.sessions session ≡ Some s
            → IsFrameText (frame_of self.now.chain.tiers session s done.round) text.items) }
    {
        let round = self.seats.round(session);
        let number = self.seats.frames(session) + 1;
        let patches = round.patches();
        let bodies = shared_bodies(alloc, &self.chain, patches)?;
        let mut text = Vec::new(alloc);
        frame_text(
            alloc,
            session,
            number,
            round.cut(),
            round.tries(),
            patches,
            &bodies,
            &mut text,
        )?;
        Ok(text)
    }

    // Counts a frame of the session, whose round is done, and marks the round as printed.
    pub(super) fn print_session(&mut self, session: u32)
        requires done { IsDoneAt self.old.seats.sessions session }
        requires few { frames_at self.old.seats.sessions session < 2 ^ 63 }
        requires seats { length self.old.seats.sessions ≡ SESSIONS }
        ensures does { (words : List Entry) (seats : SeatsSeen)
            → self.old.seats.mesh ≡ seats.mesh
            → (round : FinishesRound session words seats self.old.words self.old.seats)
            → Does (world_of self.old) (state_in self.old.chain.tiers words seats self.old.board)
            (orders.Frame session)
            (DidFrame (frame_of self.old.chain.tiers session round.last round.done.round))
            (run_state self.new) }
        ensures told { (told : SessionTold)
            → seat_told self.old.seats.sessions session ≡ Some told
            → SetAt (seat_told self.old.seats.sessions) session (Some (one_frame_more told))
            (seat_told self.new.seats.sessions) }
        ensures place { KeepsPlace self.old self.new }
        ensures board { self.new.board ≡ self.old.board }
        ensures chain { self.new.chain ≡ self.old.chain }
    {
        self.seats.printed(session);
    }

    /// The session makes steps until its round is done, and the frame is printed. Condition: it is open and has a
    /// view, and printed fewer than 2^63 frames.
    pub fn frame(&mut self, alloc: Global, session: u32) -> Result<Vec<u8>, NoMemory>
        requires view { HasView self.old.seats.sessions session }
        requires few { frames_at self.old.seats.sessions session < 2 ^ 63 }
        ensures line { IfOk result
            (λ text.
            DoesLine (world_of self.old) (orders.Frame session) (run_state self.old)
            (run_state self.new) text.items) }
        ensures none { OnErr result
            (StopsIn (world_of self.old) (run_state self.old) (orders.Frame session)
            (run_state self.new)) }
        ensures told { OnOk result
            ((told : SessionTold) → seat_told self.old.seats.sessions session ≡ Some told
            → SetAt (seat_told self.old.seats.sessions) session (Some (one_frame_more told))
            (seat_told self.new.seats.sessions)) }
        ensures unprinted { OnErr result
            (Stays (seat_told self.old.seats.sessions) (seat_told self.new.seats.sessions)) }
        ensures place { KeepsPlace self.old self.new }
        ensures board { self.new.board ≡ self.old.board }
        ensures chain { self.new.chain ≡ self.old.chain }
    {
        self.finish_session(alloc, session)?;
        let text = self.frame_of_round(alloc, session)?;
        self.print_session(session);
        Ok(text)
    }
}
