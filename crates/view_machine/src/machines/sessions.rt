//! The lines of sessions. Each call does what its line orders, and gives the text.

ghost use Rattle.std.specs.Prelude.{◌≡◌, ◌+◌, ◌^◌, ◌<◌, ◌≤◌, None, Some, IfOk, OnOk, OnErr};
ghost use Rattle.script_model.specs.declared.orders.Order.TheVariants as orders;
ghost use Rattle.token_words.specs.Changes.{SetAt, Stays};
ghost use Rattle.token_words.specs.Sessions.{IsSession};
ghost use Rattle.run_model.specs.Lines.{DidClose, DidFree, DidStep, Does};
ghost use Rattle.session_seats.specs.Seats.{at_seat, IsOpen, HasView, seat_told};
ghost use Rattle.session_model.specs.Told.{SessionTold, just_opened, told_view};
ghost use Rattle.view_machine.specs.Machines.{world_of, run_state, KeepsPlace};
ghost use Rattle.view_machine.specs.OwnStops.{StopsIn};
ghost use Rattle.view_machine.specs.LineTells.{DoesLine};

use crate::machines::Machine;
use grid_vertex::NoMemory;
use round_model::View;
use run_texts::{add_closed, add_freed, add_open, add_step, add_view};
use session_seats::Stepped;
use std::alloc::Global;
use view_outside::Store;

impl<'a, S: Store> Machine<'a, S> {
    /// Session `session` opens, without a view. Condition: it isn't open.
    pub fn open(&mut self, alloc: Global, session: u32) -> Result<Vec<u8>, NoMemory>
        requires number { IsSession session }
        requires closed { at_seat self.old.seats.sessions session ≡ None }
        ensures line { IfOk result
            (λ text.
            DoesLine (world_of self.old) (orders.Open session) (run_state self.old)
            (run_state self.new) text.items) }
        ensures none { OnErr result (self.new ≡ self.old) }
        ensures told { OnOk result
            (SetAt (seat_told self.old.seats.sessions) session (Some just_opened)
            (seat_told self.new.seats.sessions)) }
        ensures place { KeepsPlace self.old self.new }
        ensures board { self.new.board ≡ self.old.board }
        ensures chain { self.new.chain ≡ self.old.chain }
    {
        let mut text = Vec::new(alloc);
        add_open(alloc, session, &mut text)?;
        self.open_session(alloc, session)?;
        Ok(text)
    }

    /// The session's view is set and posted, which ends its round. Condition: it is open.
    pub fn view(&mut self, alloc: Global, session: u32, view: View) -> Result<Vec<u8>, NoMemory>
        requires open { IsOpen self.old.seats.sessions session }
        requires few { self.old.board.version < 2 ^ 63 }
        ensures line { IfOk result
            (λ text.
            DoesLine (world_of self.old) (orders.View session view) (run_state self.old)
            (run_state self.new) text.items) }
        ensures none { OnErr result (self.new ≡ self.old) }
        ensures told { OnOk result
            ((told : SessionTold) → seat_told self.old.seats.sessions session ≡ Some told
            → SetAt (seat_told self.old.seats.sessions) session (Some (told_view told view))
            (seat_told self.new.seats.sessions)) }
        ensures version { self.new.board.version ≤ self.old.board.version + 1 }
        ensures place { KeepsPlace self.old self.new }
        ensures chain { self.new.chain ≡ self.old.chain }
    {
        let mut text = Vec::new(alloc);
        add_view(alloc, session, &mut text)?;
        self.set_view(session, view)?;
        Ok(text)
    }

    /// The session makes one step. Condition: it is open and has a view.
    pub fn step_session(&mut self, alloc: Global, session: u32) -> Result<Stepped, NoMemory>
        requires { HasView self.old.seats.sessions session }
        ensures does { IfOk result
            (λ did.
            Does (world_of self.old) (run_state self.old) (orders.Step session)
            (DidStep session did) (run_state self.new)) }
        ensures none { OnErr result
            (StopsIn (world_of self.old) (run_state self.old) (orders.Step session)
            (run_state self.new)) }
        ensures told { Stays (seat_told self.old.seats.sessions) (seat_told self.new.seats.sessions) }
        ensures place { KeepsPlace self.old self.new }
        ensures board { self.new.board ≡ self.old.board }
        ensures chain { self.new.chain ≡ self.old.chain }
    {
        self.seats.step(alloc, &mut self.words, session)
    }

    /// The session makes one step. Condition: it is open and has a view.
    pub fn step(&mut self, alloc: Global, session: u32) -> Result<Vec<u8>, NoMemory>
        requires { HasView self.old.seats.sessions session }
        ensures line { IfOk result
            (λ text.
            DoesLine (world_of self.old) (orders.Step session) (run_state self.old)
            (run_state self.new) text.items) }
        ensures none { OnErr result
            (StopsIn (world_of self.old) (run_state self.old) (orders.Step session)
            (run_state self.new)) }
        ensures told { Stays (seat_told self.old.seats.sessions) (seat_told self.new.seats.sessions) }
        ensures place { KeepsPlace self.old self.new }
        ensures board { self.new.board ≡ self.old.board }
        ensures chain { self.new.chain ≡ self.old.chain }
    {
        let did = self.step_session(alloc, session)?;
        let mut text = Vec::new(alloc);
        add_step(alloc, session, did, &mut text)?;
        Ok(text)
    }

    /// The session gives back all that it uses, and answers how many patches. Condition: it is open.
    pub fn free_session(&mut self, session: u32) -> u64
        requires { IsOpen self.old.seats.sessions session }
        ensures does { Does (world_of self.old) (run_state self.old) (orders.Free session)
            (DidFree session result) (run_state self.new) }
        ensures told { Stays (seat_told self.old.seats.sessions) (seat_told self.new.seats.sessions) }
        ensures place { KeepsPlace self.old self.new }
        ensures board { self.new.board ≡ self.old.board }
        ensures chain { self.new.chain ≡ self.old.chain }
    {
        self.seats.free(&mut self.words, session)
    }

    /// The session gives back all that it uses. Condition: it is open.
    pub fn free(&mut self, alloc: Global, session: u32) -> Result<Vec<u8>, NoMemory>
        requires { IsOpen self.old.seats.sessions session }
        ensures line { IfOk result
            (λ text.
            DoesLine (world_of self.old) (orders.Free session) (run_state self.old)
            (run_state self.new) text.items) }
        ensures none { OnErr result
            (StopsIn (world_of self.old) (run_state self.old) (orders.Free session)
            (run_state self.new)) }
        ensures told { Stays (seat_told self.old.seats.sessions) (seat_told self.new.seats.sessions) }
        ensures place { KeepsPlace self.old self.new }
        ensures board { self.new.board ≡ self.old.board }
        ensures chain { self.new.chain ≡ self.old.chain }
    {
        let unlocks = self.free_session(session);
        let mut text = Vec::new(alloc);
        add_freed(alloc, session, unlocks, &mut text)?;
        Ok(text)
    }

    /// The session gives back all that it uses, its view is taken off, and it ends. Answers how many patches it used.
    /// Condition: it is open.
    pub fn close_session(&mut self, session: u32) -> u64
        requires open { IsOpen self.old.seats.sessions session }
        requires few { self.old.board.version < 2 ^ 63 }
        ensures does { Does (world_of self.old) (run_state self.old) (orders.Close session)
            (DidClose session result) (run_state self.new) }
        ensures told { SetAt (seat_told self.old.seats.sessions) session None
            (seat_told self.new.seats.sessions) }
        ensures version { self.new.board.version ≤ self.old.board.version + 1 }
        ensures place { KeepsPlace self.old self.new }
        ensures chain { self.new.chain ≡ self.old.chain }
    {
        self.seats.close(&mut self.words, &mut self.board, session)
    }

    /// The session gives back all that it uses, its view is taken off, and it ends. Condition: it is open.
    pub fn close(&mut self, alloc: Global, session: u32) -> Result<Vec<u8>, NoMemory>
        requires open { IsOpen self.old.seats.sessions session }
        requires few { self.old.board.version < 2 ^ 63 }
        ensures line { IfOk result
            (λ text.
            DoesLine (world_of self.old) (orders.Close session) (run_state self.old)
            (run_state self.new) text.items) }
        ensures none { OnErr result
            (StopsIn (world_of self.old) (run_state self.old) (orders.Close session)
            (run_state self.new)) }
        ensures told { SetAt (seat_told self.old.seats.sessions) session None
            (seat_told self.new.seats.sessions) }
        ensures version { self.new.board.version ≤ self.old.board.version + 1 }
        ensures place { KeepsPlace self.old self.new }
        ensures chain { self.new.chain ≡ self.old.chain }
    {
        let unlocks = self.close_session(session);
        let mut text = Vec::new(alloc);
        add_closed(alloc, session, unlocks, &mut text)?;
        Ok(text)
    }
}
