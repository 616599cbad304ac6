//! How a chain starts.

ghost use Rattle.std.specs.Prelude.{◌≡◌, ◌<◌, ◌≤◌, length, slice_index, IfOk, IfErr, IfSome, Err};
ghost use Rattle.view_outside.specs.Files.{HasFile, file_bytes};
ghost use Rattle.view_outside.specs.Taken.{taken_after};
ghost use Rattle.mesh_model.specs.Graph.{outgoing};
ghost use Rattle.tier_model.specs.Tiers.{IsWidth};
ghost use Rattle.cache_chain.specs.ChainStates.{IsChain};
ghost use Rattle.cache_chain.specs.Opening.{IsOpened};
ghost use Rattle.cache_chain.specs.Refusals.{base_size, NamesBudget, NamesChange, NamesBodyFault, HasCauseIn};
ghost use Rattle.cache_chain.specs.declared.refusals.StartRefusal.TheVariants.{Budget};

use super::TierChain;
use crate::opening::open_tiers;
use crate::refusals::StartRefusal;
use accepted_mesh::Mesh;
use std::alloc::Global;
use view_outside::Store;

impl<'a, S: Store> TierChain<'a, S> {
    /// A chain over the mesh's file in a store, with a tier for each of these budgets, in bytes. The first tier
    /// holds the base patches, pinned; the others hold nothing. Each takes one patch at a time. Condition: there
    /// are 1 to 4 budgets.
    pub fn start(
        alloc: Global,
        mesh: &'a Mesh,
        budgets: &[u64],
        store: &'a mut S,
        file: u32,
    ) -> Result<TierChain<'a, S>, StartRefusal>
        requires some_budget { 1 ≤ length budgets.now }
        requires few { length budgets.now ≤ 4 }
        requires file { HasFile (S.files store.old) file }
        ensures opened { IfOk result
            (λ chain.
            IsOpened mesh.now.lists.index (file_bytes (S.files store.old) file) budgets.now 1
            chain.tiers) }
        ensures facts { IfOk result
            (λ chain. IsChain chain.mesh.lists.index (S.files chain.store) chain.file chain.tiers) }
        ensures large { slice_index budgets.now 0 < base_size mesh.now.lists
            → result ≡ Err (Budget (base_size mesh.now.lists) (slice_index budgets.now 0)) }
        ensures budget { IfErr result
            (NamesBudget (base_size mesh.now.lists) (slice_index budgets.now 0)) }
        ensures changed { IfErr result NamesBodyFault }
        ensures told { IfSome (file_bytes (S.files store.old) file)
            (λ bytes.
            IfErr result
            (NamesChange mesh.now.lists.index bytes
            (outgoing mesh.now.lists.index.fields mesh.now.lists.root))) }
        ensures reason { IfErr result
            (HasCauseIn S.files S.faults S.taken (base_size mesh.now.lists) store.old) }
        ensures taken { IfOk result
            (λ chain.
            S.taken chain.store
            ≡ taken_after (S.taken store.old) (base_size mesh.now.lists)) }
        ensures later { IfOk result (λ chain. S.faults store.old ≤ S.faults chain.store) }
        ensures files { IfOk result (λ chain. S.files chain.store ≡ S.files store.old) }
        ensures mesh { IfOk result (λ chain. chain.mesh ≡ mesh.now) }
        ensures file { IfOk result (λ chain. chain.file ≡ file) }
        ensures lender { IfOk result (λ chain. chain.lender ≡ store.entry.ghost_name) }
    {
        TierChain::start_wide(alloc, mesh, budgets, 1, store, file)
    }

    /// The same, where each tier takes up to `width` patches, 1 to 8, at a time.
    ///
    /// `Budget` comes exactly where the bodies of the base patches have more bytes than the first budget, and
    /// `ReadFault` only where the store came to a state in which its faults rose. That a refusal leaves the
    /// store in that state is said by `open_tiers`, which gives the tiers alone.
    pub fn start_wide(
        alloc: Global,
        mesh: &'a Mesh,
        budgets: &[u64],
        width: u32,
        store: &'a mut S,
        file: u32,
    ) -> Result<TierChain<'a, S>, StartRefusal>
        requires some_budget { 1 ≤ length budgets.now }
        requires few { length budgets.now ≤ 4 }
        requires width { IsWidth width }
        requires file { HasFile (S.files store.old) file }
        ensures opened { IfOk result
            (λ chain.
            IsOpened mesh.now.lists.index (file_bytes (S.files store.old) file) budgets.now
            width chain.tiers) }
        ensures facts { IfOk result
            (λ chain. IsChain chain.mesh.lists.index (S.files chain.store) chain.file chain.tiers) }
        ensures large { slice_index budgets.now 0 < base_size mesh.now.lists
            → result ≡ Err (Budget (base_size mesh.now.lists) (slice_index budgets.now 0)) }
        ensures budget { IfErr result
            (NamesBudget (base_size mesh.now.lists) (slice_index budgets.now 0)) }
        ensures changed { IfErr result NamesBodyFault }
        ensures told { IfSome (file_bytes (S.files store.old) file)
            (λ bytes.
            IfErr result
            (NamesChange mesh.now.lists.index bytes
            (outgoing mesh.now.lists.index.fields mesh.now.lists.root))) }
        ensures reason { IfErr result
            (HasCauseIn S.files S.faults S.taken (base_size mesh.now.lists) store.old) }
        ensures taken { IfOk result
            (λ chain.
            S.taken chain.store
            ≡ taken_after (S.taken store.old) (base_size mesh.now.lists)) }
        ensures later { IfOk result (λ chain. S.faults store.old ≤ S.faults chain.store) }
        ensures files { IfOk result (λ chain. S.files chain.store ≡ S.files store.old) }
        ensures mesh { IfOk result (λ chain. chain.mesh ≡ mesh.now) }
        ensures file { IfOk result (λ chain. chain.file ≡ file) }
        ensures lender { IfOk result (λ chain. chain.lender ≡ store.entry.ghost_name) }
    {
        let tiers = open_tiers(alloc, mesh, budgets, width, store, file)?;
        Ok(TierChain {
            mesh,
            tiers,
            store,
            file,
        })
    }
}
