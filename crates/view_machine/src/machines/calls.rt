//! What the lines of a script do, without their texts, and what a tier holds.

ghost use Rattle.std.specs.Prelude.{◌≡◌, ◌+◌, ◌^◌, ◌<◌, ◌≤◌, None, Some, length, slice_get, OnOk, OnErr};
ghost use Rattle.script_model.specs.declared.orders.Order.TheVariants as orders;
ghost use Rattle.session_model.specs.Told.{SessionTold, just_opened, told_view};
ghost use Rattle.session_seats.specs.Seats.{at_seat, IsOpen, seat_told};
ghost use Rattle.token_words.specs.Changes.{SetAt};
ghost use Rattle.token_words.specs.Sessions.{IsSession};
ghost use Rattle.run_model.specs.Lines.{DidOpen, DidView, Does};
ghost use Rattle.view_machine.specs.Machines.{world_of, run_state, KeepsPlace};

use crate::machines::Machine;
use grid_vertex::NoMemory;
use round_model::View;
use std::alloc::Global;
use tier_budget::Tier;
use view_outside::Store;

impl<'a, S: Store> Machine<'a, S> {
    /// Session `session` opens, without a view. Condition: it isn't open.
    pub fn open_session(&mut self, alloc: Global, session: u32) -> Result<(), NoMemory>
        requires number { IsSession session }
        requires closed { at_seat self.old.seats.sessions session ≡ None }
        ensures does { OnOk result
            (Does (world_of self.old) (run_state self.old) (orders.Open session)
            (DidOpen session) (run_state self.new)) }
        ensures none { OnErr result (self.new ≡ self.old) }
        ensures told { OnOk result
            (SetAt (seat_told self.old.seats.sessions) session (Some just_opened)
            (seat_told self.new.seats.sessions)) }
        ensures place { KeepsPlace self.old self.new }
        ensures board { self.new.board ≡ self.old.board }
        ensures chain { self.new.chain ≡ self.old.chain }
    {
        self.seats.open(alloc, &self.words, session)?;
        Ok(())
    }

    /// The session's view is set and posted, which ends its round. Condition: it is open, and the version of the board is
    /// below 2^63.
    pub fn set_view(&mut self, session: u32, view: View) -> Result<(), NoMemory>
        requires open { IsOpen self.old.seats.sessions session }
        requires few { self.old.board.version < 2 ^ 63 }
        ensures does { OnOk result
            (Does (world_of self.old) (run_state self.old) (orders.View session view)
            (DidView session) (run_state self.new)) }
        ensures none { OnErr result (self.new ≡ self.old) }
        ensures told { OnOk result
            ((told : SessionTold) → seat_told self.old.seats.sessions session ≡ Some told
            → SetAt (seat_told self.old.seats.sessions) session (Some (told_view told view))
            (seat_told self.new.seats.sessions)) }
        ensures version { self.new.board.version ≤ self.old.board.version + 1 }
        ensures place { KeepsPlace self.old self.new }
        ensures chain { self.new.chain ≡ self.old.chain }
    {
        self.seats.set_view(&mut self.board, session, view)?;
        Ok(())
    }

    /// How many tiers there are, 1 to 4.
    pub fn tier_count(&self) -> u32
        ensures { result ≡ length self.now.chain.tiers }
    {
        self.chain.tier_count()
    }

    /// The tier of this number; 0 is the top. It tells its budget, its load, the patches that it holds and those that
    /// come.
    pub fn tier(&self, tier: u32) -> &Tier
        requires { tier < length self.now.chain.tiers }
        ensures { slice_get self.now.chain.tiers tier ≡ Some result.now.state }
    {
        self.chain.tier(tier)
    }
}
