//! How a machine opens, and what it leaves.

ghost use Rattle.std.specs.Prelude.{◌≡◌, ◌<◌, ◌≤◌, length, slice_index, IfOk, IfErr, IfSome, Err};
ghost use Rattle.view_outside.specs.Files.{HasFile, file_bytes};
ghost use Rattle.view_outside.specs.Taken.{taken_after};
ghost use Rattle.mesh_model.specs.Graph.{outgoing};
ghost use Rattle.tier_model.specs.Tiers.{IsWidth};
ghost use Rattle.cache_chain.specs.ChainStates.{states_of, AreTiersOf};
ghost use Rattle.cache_chain.specs.Refusals.{base_size, NamesBudget, NamesChange, NamesBodyFault, HasCauseIn};
ghost use Rattle.cache_chain.specs.declared.refusals.StartRefusal.TheVariants.{Budget};
ghost use Rattle.run_model.specs.Worlds.{IsWorld};
ghost use Rattle.run_model.specs.Safe.{IsSafe};
ghost use Rattle.view_machine.specs.Machines.{world_of, run_state};
ghost use Rattle.view_machine.specs.Openings.{world_for, HaveOpened, IsEmptyRun, OpensOver};

use crate::machines::Machine;
use accepted_mesh::Mesh;
use arrayvec::ArrayVec;
use cache_chain::{ChainParts, StartRefusal, Tier, TierChain, open_tiers};
use grid_vertex::NoMemory;
use session_seats::Seats;
use std::alloc::Global;
use token_words::PlainTokens;
use view_outside::Store;
use wish_board::WishBoard;

/// What a machine has beside its chain as it opens: the words of the patches, of which the base patches are
/// there, seats where no session is open, and a board without views.
#[derive(Drop)]
pub struct EmptyRun<'a> {
    words: PlainTokens,
    seats: Seats<'a>,
    board: WishBoard,
}

impl<'a> EmptyRun<'a> {
    /// What a machine over the mesh begins with.
    pub fn new(alloc: Global, mesh: &'a Mesh) -> Result<EmptyRun<'a>, NoMemory>
        ensures { IfOk result
            (λ first. IsEmptyRun mesh.now.lists first.words first.seats first.board) }
    {
        let index = mesh.index();
        let words = PlainTokens::new(alloc, index.patch_count(), mesh.base())?;
        let seats = Seats::new(alloc, mesh)?;
        let board = WishBoard::new(alloc, mesh)?;
        Ok(EmptyRun {
            words,
            seats,
            board,
        })
    }
}

impl<'a, S: Store> Machine<'a, S> {
    /// The machine over the tiers of a chain that has just opened over the mesh's file in a store. Condition:
    /// the tiers are those, and `first` is of the mesh.
    ///
    /// With `open_tiers` this is `start_wide` for a caller who lends the store only where the run opens.
    pub fn over_tiers(
        first: EmptyRun<'a>,
        mesh: &'a Mesh,
        tiers: ArrayVec<Tier, 4, Global>,
        store: &'a mut S,
        file: u32,
    ) -> Machine<'a, S>
        requires first { IsEmptyRun mesh.now.lists first.words first.seats first.board }
        requires file { HasFile (S.files store.old) file }
        requires are { AreTiersOf mesh.now.lists.index (file_bytes (S.files store.old) file)
            (states_of tiers.items) }
        requires opened { HaveOpened mesh.now.lists.index (file_bytes (S.files store.old) file)
            (states_of tiers.items) }
        ensures opens { OpensOver mesh.now file (file_bytes (S.files store.old) file) result }
        ensures tiers { result.chain.tiers ≡ states_of tiers.items }
        ensures store { result.chain.store ≡ store.old }
        ensures lender { result.chain.lender ≡ store.entry.ghost_name }
    {
        let EmptyRun {
            words,
            seats,
            board,
        } = first;
        let chain = TierChain::from_parts(ChainParts {
            mesh,
            tiers,
            store,
            file,
        });
        Machine {
            chain,
            words,
            seats,
            board,
        }
    }

    /// A machine over the mesh's file in a store, with a tier for each of these budgets, in bytes. The first tier
    /// holds the base patches, pinned; the others hold nothing. Each takes one patch at a time. No session is
    /// open. Condition: there are 1 to 4 budgets.
    pub fn start(
        alloc: Global,
        mesh: &'a Mesh,
        budgets: &[u64],
        store: &'a mut S,
        file: u32,
    ) -> Result<Machine<'a, S>, StartRefusal>
        requires some_budget { 1 ≤ length budgets.now }
        requires few { length budgets.now ≤ 4 }
        requires file { HasFile (S.files store.old) file }
        ensures opens { IfOk result
            (OpensOver mesh.now file (file_bytes (S.files store.old) file)) }
        ensures world { IfOk result
            (λ machine.
            world_of machine
            ≡ world_for mesh.now.lists (file_bytes (S.files store.old) file) budgets.now 1) }
        ensures large { slice_index budgets.now 0 < base_size mesh.now.lists
            → result ≡ Err (Budget (base_size mesh.now.lists) (slice_index budgets.now 0)) }
        ensures budget { IfErr result
            (NamesBudget (base_size mesh.now.lists) (slice_index budgets.now 0)) }
        ensures changed { IfErr result NamesBodyFault }
        ensures told { IfSome (file_bytes (S.files store.old) file)
            (λ bytes.
            IfErr result
            (NamesChange mesh.now.lists.index bytes
            (outgoing mesh.now.lists.index.fields mesh.now.lists.root))) }
        ensures reason { IfErr result
            (HasCauseIn S.files S.faults S.taken (base_size mesh.now.lists) store.old) }
        ensures taken { IfOk result
            (λ machine.
            S.taken machine.chain.store
            ≡ taken_after (S.taken store.old) (base_size mesh.now.lists)) }
        ensures later { IfOk result
            (λ machine. S.faults store.old ≤ S.faults machine.chain.store) }
        ensures files { IfOk result (λ machine. S.files machine.chain.store ≡ S.files store.old) }
        ensures lender { IfOk result (λ machine. machine.chain.lender ≡ store.entry.ghost_name) }
    {
        Machine::start_wide(alloc, mesh, budgets, 1, store, file)
    }

    /// The same, where each tier takes up to `width` patches, 1 to 8, at a time.
    ///
    /// `Budget` comes exactly where the bodies of the base patches have more bytes than the first budget, and
    /// `ReadFault` only where the store came to a state in which its faults rose. That a refusal leaves the
    /// store in that state is said by `open_tiers`, behind which `over_tiers` makes the machine.
    pub fn start_wide(
        alloc: Global,
        mesh: &'a Mesh,
        budgets: &[u64],
        width: u32,
        store: &'a mut S,
        file: u32,
    ) -> Result<Machine<'a, S>, StartRefusal>
        requires some_budget { 1 ≤ length budgets.now }
        requires few { length budgets.now ≤ 4 }
        requires width { IsWidth width }
        requires file { HasFile (S.files store.old) file }
        ensures opens { IfOk result
            (OpensOver mesh.now file (file_bytes (S.files store.old) file)) }
        ensures world { IfOk result
            (λ machine.
            world_of machine
            ≡ world_for mesh.now.lists (file_bytes (S.files store.old) file) budgets.now width) }
        ensures large { slice_index budgets.now 0 < base_size mesh.now.lists
            → result ≡ Err (Budget (base_size mesh.now.lists) (slice_index budgets.now 0)) }
        ensures budget { IfErr result
            (NamesBudget (base_size mesh.now.lists) (slice_index budgets.now 0)) }
        ensures changed { IfErr result NamesBodyFault }
        ensures told { IfSome (file_bytes (S.files store.old) file)
            (λ bytes.
            IfErr result
            (NamesChange mesh.now.lists.index bytes
            (outgoing mesh.now.lists.index.fields mesh.now.lists.root))) }
        ensures reason { IfErr result
            (HasCauseIn S.files S.faults S.taken (base_size mesh.now.lists) store.old) }
        ensures taken { IfOk result
            (λ machine.
            S.taken machine.chain.store
            ≡ taken_after (S.taken store.old) (base_size mesh.now.lists)) }
        ensures later { IfOk result
            (λ machine. S.faults store.old ≤ S.faults machine.chain.store) }
        ensures files { IfOk result (λ machine. S.files machine.chain.store ≡ S.files store.old) }
        ensures lender { IfOk result (λ machine. machine.chain.lender ≡ store.entry.ghost_name) }
    {
        let tiers = open_tiers(alloc, mesh, budgets, width, store, file)?;
        let first = EmptyRun::new(alloc, mesh)?;
        Ok(Machine::over_tiers(first, mesh, tiers, store, file))
    }

    /// The store, which the machine was lent. The state of the run was a safe one to the end.
    pub fn into_store(self) -> &'a mut S
        ensures store { result.now ≡ self.entry.chain.store }
        ensures lender { result.ghost_name ≡ self.entry.chain.lender }
        ensures world { IsWorld (world_of self.entry) }
        ensures safe { IsSafe (world_of self.entry) (run_state self.entry) }
    {
        let Machine {
            chain,
            words: _,
            seats: _,
            board: _,
        } = self;
        let ChainParts {
            mesh: _,
            tiers: _,
            store,
            file: _,
        } = chain.into_parts();
        store
    }
}
