//! Tiers: how they are made, and what is read of them.

use crate::journals::Journal;
use crate::lists::{base_patches, body_sizes, no_bodies};
use crate::marks::{Marks, has_mark};
use crate::missing_heap::MissingHeap;
use crate::patch_words::PatchWords;
use grid_vertex::NoMemory;
use patch_file::{Body, Index};
use std::alloc::Global;
use std::default::MadeWith;
use std::marker::Model;
use std::sync::Arc;
use tier_heap::PairHeap;
use tier_model::{Coming, Turn};

/// A tier of the cache. The bytes of the patches that it holds and of those that come are at most its
/// budget.
#[derive(Drop)]
pub struct Tier {
    budget: u64,
    width: u32,
    version: u64,
    load: u64,
    pinned_bytes: u64,
    held_count: u32,
    sizes: Vec<u64>,
    wishes: Vec<u64>,
    base: Vec<bool>,
    pinned: Vec<bool>,
    passed: Marks,
    aside: Marks,
    held: Vec<Option<Arc<Body>>>,
    came: Vec<Option<Arc<Body>>>,
    coming: Vec<Coming>,
    journal: Journal,
    leaving: PairHeap,
    missing: MissingHeap,
    holds: PatchWords,
}

impl Model for Tier {
    ghost use Rattle.tier_budget.specs.TierView.{TierSeen};

    ghost Value = { TierSeen };

    ghost use Rattle.tier_budget.specs.TierView.{tier_view, IsTierInside};

    ghost view = { tier_view };

    ghost invariant = { IsTierInside };
}

impl Tier {
    ghost use Rattle.std.specs.Prelude.{◌≡◌, ◌<◌, ◌≤◌, [], true, false, Some, None, slice_get, IfOk, IfSome, IsOk, MatchOption, OnOk};
    ghost use Rattle.std.specs.Arc.{arc_value};
    ghost use Rattle.tier_model.specs.Places.{is_marked};
    ghost use Rattle.tier_model.specs.Tiers.{count, load, pinned_bytes, IsWidth, IsBodyFor, IsTier};
    ghost use Rattle.tier_model.specs.Changes.{fresh};
    ghost use Rattle.tier_budget.specs.TierView.{held_count};

    /// A tier of the index that holds nothing, and takes one patch at a time. The budget is in bytes.
    pub fn new(alloc: Global, index: &Index, budget: u64) -> Result<Tier, NoMemory>
        ensures state { IfOk result (λ tier. tier.state ≡ fresh index.now budget 1) }
        ensures records { IfOk result (λ tier. tier.records ≡ true) }
    {
        Tier::with_width(alloc, index, budget, 1)
    }

    /// A tier of the index that holds nothing, and takes up to `width` patches, 1 to 8, at a time. The
    /// budget is in bytes.
    pub fn with_width(
        alloc: Global,
        index: &Index,
        budget: u64,
        width: u32,
    ) -> Result<Tier, NoMemory>
        requires { IsWidth width }
        ensures state { IfOk result (λ tier. tier.state ≡ fresh index.now budget width) }
        ensures records { IfOk result (λ tier. tier.records ≡ true) }
    {
        Tier::with_journal(alloc, index, budget, width, true)
    }

    /// The same, but the tier doesn't keep its journal, which contracts alone know. No other call of such a
    /// tier takes memory.
    pub fn silent(alloc: Global, index: &Index, budget: u64, width: u32) -> Result<Tier, NoMemory>
        requires { IsWidth width }
        ensures state { IfOk result (λ tier. tier.state ≡ fresh index.now budget width) }
        ensures records { IfOk result (λ tier. tier.records ≡ false) }
    {
        Tier::with_journal(alloc, index, budget, width, false)
    }

    /// A tier of the index that holds nothing, and keeps its journal or doesn't.
    fn with_journal(
        alloc: Global,
        index: &Index,
        budget: u64,
        width: u32,
        records: bool,
    ) -> Result<Tier, NoMemory>
        requires { IsWidth width }
        ensures state { IfOk result (λ tier. tier.state ≡ fresh index.now budget width) }
        ensures records { IfOk result (λ tier. tier.records ≡ records) }
    {
        let patches = index.patch_count();
        let unmarked = patches as usize;
        Ok(Tier {
            budget,
            width,
            version: 0,
            load: 0,
            pinned_bytes: 0,
            held_count: 0,
            sizes: body_sizes(alloc, index)?,
            wishes: vec![in alloc; 0; unmarked]?,
            base: base_patches(alloc, index)?,
            pinned: vec![in alloc; false; unmarked]?,
            passed: Marks::with_patches(alloc, patches)?,
            aside: Marks::with_patches(alloc, patches)?,
            held: no_bodies(alloc, patches)?,
            came: no_bodies(alloc, patches)?,
            coming: Vec::with_capacity(alloc, width as usize)?,
            journal: Journal::new(alloc, records),
            leaving: PairHeap::with_ids(alloc, patches)?,
            missing: MissingHeap::with_patches(alloc, patches)?,
            holds: PatchWords::with_patches(alloc, patches)?,
        })
    }

    /// Makes room for an entry of the journal. A refused call leaves the tier as it was; one of a tier that
    /// doesn't keep its journal takes no memory.
    pub fn make_place(&mut self) -> Result<(), NoMemory>
        ensures state { self.new.state ≡ self.old.state }
        ensures kept { IsTier self.new.state }
        ensures place { OnOk result (1 ≤ self.new.spare) }
        ensures records { self.new.records ≡ self.old.records }
        ensures silent { self.old.records ≡ false → IsOk result }
    {
        self.journal.reserve_one()
    }

    /// The body of the patch, None exactly where the tier doesn't hold the patch.
    pub fn held(&self, patch: u32) -> Option<&Arc<Body>>
        requires { patch < count self.now.state }
        ensures body { MatchOption result (slice_get self.now.state.held patch ≡ Some None)
            (λ body. slice_get self.now.state.held patch ≡ Some (Some (arc_value body.now))) }
        ensures right { IfSome result
            (λ body. IsBodyFor self.now.state.sizes patch (arc_value body.now)) }
    {
        self.held[patch as usize].as_ref()
    }

    /// How many patches the tier holds.
    pub fn held_count(&self) -> u32
        ensures { result ≡ held_count self.now.state }
    {
        self.held_count
    }

    /// The patches that come, in their order.
    pub fn coming(&self) -> &[Coming]
        ensures { result.now ≡ self.now.state.coming }
    {
        &self.coming
    }

    /// How many bytes the patches have that are held or come.
    pub fn load(&self) -> u64
        ensures value { result ≡ load self.now.state }
        ensures fits { result ≤ self.now.state.budget }
    {
        self.load
    }

    /// How many bytes may be held or come.
    pub fn budget(&self) -> u64
        ensures value { result ≡ self.now.state.budget }
        ensures kept { IsTier self.now.state }
    {
        self.budget
    }

    /// How many patches come at once at most, from 1 to 8.
    pub fn width(&self) -> u32
        ensures value { result ≡ self.now.state.width }
        ensures bounds { IsWidth result }
    {
        self.width
    }

    /// How many bytes the pinned patches have.
    pub fn pinned_bytes(&self) -> u64
        ensures { result ≡ pinned_bytes self.now.state }
    {
        self.pinned_bytes
    }

    /// Whether the patch was passed over, since it was in use.
    pub fn is_passed(&self, patch: u32) -> bool
        requires { patch < count self.now.state }
        ensures { result ≡ is_marked self.now.state.passed patch }
    {
        self.passed.has(patch)
    }

    /// Whether the patch was put aside, since it couldn't be read.
    pub fn is_aside(&self, patch: u32) -> bool
        requires { patch < count self.now.state }
        ensures { result ≡ is_marked self.now.state.aside patch }
    {
        self.aside.has(patch)
    }

    /// Whether the patch leads from a root.
    pub fn is_base(&self, patch: u32) -> bool
        requires { patch < count self.now.state }
        ensures { result ≡ is_marked self.now.state.base patch }
    {
        has_mark(&self.base, patch)
    }

    /// Whether the patch is pinned: held, and never given up.
    pub fn is_pinned(&self, patch: u32) -> bool
        requires { patch < count self.now.state }
        ensures { result ≡ is_marked self.now.state.pinned patch }
    {
        has_mark(&self.pinned, patch)
    }

    /// The version of the wishes at which `renew` was called last, and 0 before.
    pub fn version(&self) -> u64
        ensures { result ≡ self.now.state.version }
    {
        self.version
    }

    /// All that the tier did, but for turns without an entry. None exactly where the tier doesn't keep its
    /// journal.
    pub fn journal(&self) -> Option<&[Turn]>
        ensures { MatchOption result (self.now.records ≡ false)
            (λ journal.
            (self.now.records ≡ true) × (journal.now ≡ self.now.state.journal)) }
    {
        self.journal.entries()
    }
}

impl MadeWith<Global> for Tier {
    /// A tier of no patches.
    fn made_with(alloc: Global) -> Tier {
        Tier {
            budget: 0,
            width: 1,
            version: 0,
            load: 0,
            pinned_bytes: 0,
            held_count: 0,
            sizes: Vec::new(alloc),
            wishes: Vec::new(alloc),
            base: Vec::new(alloc),
            pinned: Vec::new(alloc),
            passed: Marks::new(alloc),
            aside: Marks::new(alloc),
            held: Vec::new(alloc),
            came: Vec::new(alloc),
            coming: Vec::new(alloc),
            journal: Journal::new(alloc, true),
            leaving: PairHeap::new(alloc),
            missing: MissingHeap::new(alloc),
            holds: PatchWords::new(alloc),
        }
    }
}

mod changes;
mod choices;
#[cfg(test)]
mod tests;
