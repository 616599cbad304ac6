//! Machines over tiers at rest, and sessions that join again with their view and their count of frames.

ghost use Rattle.std.specs.Prelude.{◌≡◌, ◌+◌, ◌^◌, ◌<◌, ◌≤◌, ◌⊎◌, None, Some, IfOk, OnOk, OnErr};
ghost use Rattle.view_outside.specs.Files.{HasFile, file_bytes};
ghost use Rattle.script_model.specs.declared.orders.Order.TheVariants as orders;
ghost use Rattle.token_words.specs.Changes.{SetAt};
ghost use Rattle.token_words.specs.PlainTokens.{epoch_of};
ghost use Rattle.token_words.specs.Sessions.{IsSession};
ghost use Rattle.wish_board.specs.Boards.{empty_board};
ghost use Rattle.cache_chain.specs.ChainStates.{states_of, AreTiersOf};
ghost use Rattle.run_model.specs.Lines.{DidOpen, Does};
ghost use Rattle.resumed_model.specs.Resting.{resting};
ghost use Rattle.resumed_model.specs.Rejoins.{recounted, RejoinsAs};
ghost use Rattle.session_seats.specs.Seats.{at_seat, empty_seats, IsOpen, seat_told};
ghost use Rattle.session_model.specs.Told.{SessionTold, just_opened, told_view, told_from};
ghost use Rattle.view_machine.specs.Machines.{world_with, world_of, run_state, KeepsPlace};
ghost use Rattle.view_machine.specs.RestMachines.{RestsOver};

use crate::machines::Machine;
use accepted_mesh::Mesh;
use arrayvec::ArrayVec;
use cache_chain::{ChainParts, Tier, TierChain};
use grid_vertex::NoMemory;
use round_model::View;
use session_seats::Seats;
use std::alloc::Global;
use token_words::PlainTokens;
use view_outside::Store;
use wish_board::WishBoard;

impl<'a, S: Store> Machine<'a, S> {
    /// The machine over these tiers, which are at rest, with the words of their patches. No session is open.
    /// Condition: the tiers are those of the mesh's file in the store, each was renewed behind a board without
    /// views, the first is tied to the words, no session uses a word, and the base patches are pinned.
    pub fn over_rest(
        alloc: Global,
        mesh: &'a Mesh,
        tiers: ArrayVec<Tier, 4, Global>,
        words: PlainTokens,
        store: &'a mut S,
        file: u32,
    ) -> Result<Machine<'a, S>, NoMemory>
        requires file { HasFile (S.files store.old) file }
        requires are { AreTiersOf mesh.now.lists.index (file_bytes (S.files store.old) file)
            (states_of tiers.items) }
        requires rests { RestsOver mesh.now.lists (file_bytes (S.files store.old) file)
            (states_of tiers.items) words }
        ensures state { IfOk result
            (λ machine. run_state machine ≡ resting (states_of tiers.items) (epoch_of words)) }
        ensures world { IfOk result
            (λ machine.
            world_of machine
            ≡ world_with mesh.now.lists (file_bytes (S.files store.old) file)
            (states_of tiers.items)) }
        ensures closed { IfOk result
            (λ machine. machine.seats ≡ empty_seats mesh.now.lists) }
        ensures blank { IfOk result (λ machine. machine.board ≡ empty_board mesh.now.lists) }
        ensures mesh { IfOk result (λ machine. machine.chain.mesh ≡ mesh.now) }
        ensures tiers { IfOk result (λ machine. machine.chain.tiers ≡ states_of tiers.items) }
        ensures file { IfOk result (λ machine. machine.chain.file ≡ file) }
        ensures store { IfOk result (λ machine. machine.chain.store ≡ store.old) }
        ensures lender { IfOk result (λ machine. machine.chain.lender ≡ store.entry.ghost_name) }
    {
        let seats = Seats::new(alloc, mesh)?;
        let board = WishBoard::new(alloc, mesh)?;
        let chain = TierChain::from_parts(ChainParts {
            mesh,
            tiers,
            store,
            file,
        });
        Ok(Machine {
            chain,
            words,
            seats,
            board,
        })
    }

    /// The session counts its frames on from this number. Condition: it is open.
    pub fn count_from(&mut self, session: u32, frames: u64)
        requires { IsOpen self.old.seats.sessions session }
        ensures state { run_state self.new ≡ recounted (run_state self.old) session frames }
        ensures told { (told : SessionTold)
            → seat_told self.old.seats.sessions session ≡ Some told
            → SetAt (seat_told self.old.seats.sessions) session (Some (told_from told frames))
            (seat_told self.new.seats.sessions) }
        ensures place { KeepsPlace self.old self.new }
        ensures board { self.new.board ≡ self.old.board }
        ensures chain { self.new.chain ≡ self.old.chain }
    {
        self.seats.count_from(session, frames);
    }

    /// The session joins again: it opens, its view is set and posted, and it counts its frames on from this number.
    /// Condition: it isn't open.
    ///
    /// A call that is refused memory leaves the machine as it was, or the session open without a view.
    pub fn rejoin(
        &mut self,
        alloc: Global,
        session: u32,
        frames: u64,
        view: View,
    ) -> Result<(), NoMemory>
        requires number { IsSession session }
        requires closed { at_seat self.old.seats.sessions session ≡ None }
        requires few { self.old.board.version < 2 ^ 63 }
        ensures rejoins { OnOk result
            (RejoinsAs session frames view (world_of self.old) (run_state self.old)
            (run_state self.new)) }
        ensures refused { OnErr result
            ((self.new ≡ self.old)
            ⊎ Does (world_of self.old) (run_state self.old) (orders.Open session)
            (DidOpen session) (run_state self.new)) }
        ensures told { OnOk result
            (SetAt (seat_told self.old.seats.sessions) session
            (Some (told_from (told_view just_opened view) frames))
            (seat_told self.new.seats.sessions)) }
        ensures version { self.new.board.version ≤ self.old.board.version + 1 }
        ensures place { KeepsPlace self.old self.new }
        ensures chain { self.new.chain ≡ self.old.chain }
    {
        self.open_session(alloc, session)?;
        self.set_view(session, view)?;
        self.count_from(session, frames);
        Ok(())
    }
}
