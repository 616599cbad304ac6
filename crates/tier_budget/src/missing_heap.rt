//! The patches that are missing, by their wishes and as a set.

use crate::patch_words::PatchWords;
use grid_vertex::NoMemory;
use std::alloc::Global;
use std::marker::Model;
use tier_heap::PairHeap;

/// The patches that are missing, by their wishes, and a set that lacks none of them.
#[derive(Drop)]
pub struct MissingHeap {
    heap: PairHeap,
    words: PatchWords,
}

impl Model for MissingHeap {
    ghost use Rattle.std.specs.Prelude.{List, Option, ℕ};

    ghost Value = { List (Option ℕ) };

    ghost use Rattle.tier_budget.specs.MissingView.{missing_view, AreMissingInside};

    ghost view = { missing_view };

    ghost invariant = { AreMissingInside };
}

impl MissingHeap {
    ghost use Rattle.std.specs.Prelude.{◌≡◌, ℕ, ◌<◌, ◌↔◌, [], true, length, slice_set, replicate, IsSome, IsNone, IfOk, IfSome, IfNone};
    ghost use Rattle.tier_heap.specs.Entries.{rank_at, IsEmpty, NoneFits, IsGreatestBy};
    ghost use Rattle.tier_budget.specs.MissingView.{HasRanked};

    /// No patches, with room for none.
    pub fn new(alloc: Global) -> MissingHeap
        ensures { result ≡ [] }
    {
        MissingHeap {
            heap: PairHeap::new(alloc),
            words: PatchWords::new(alloc),
        }
    }

    /// No patches, with room for so many. No other call takes memory.
    pub fn with_patches(alloc: Global, patches: u32) -> Result<MissingHeap, NoMemory>
        ensures { IfOk result (λ missing. missing ≡ replicate patches None) }
    {
        Ok(MissingHeap {
            heap: PairHeap::with_ids(alloc, patches)?,
            words: PatchWords::with_patches(alloc, patches)?,
        })
    }

    /// Gives a patch this rank, or takes it out where there is none.
    pub fn set(&mut self, patch: u32, rank: Option<u64>)
        requires { patch < length self.old }
        ensures { self.new ≡ slice_set self.old patch rank }
    {
        self.words.set(patch, rank.is_some());
        self.heap.set(patch, rank);
    }

    /// Whether there is no patch.
    pub fn is_empty(&self) -> bool
        ensures { result ≡ true ↔ IsEmpty self.now }
    {
        self.heap.greatest().is_none()
    }

    /// The patch that fits whose entry is above all others that fit, None where none fits.
    pub fn greatest_where<F: Fn(u32) -> bool>(&self, fits: F) -> Option<u32>
        requires { (id : ℕ) → IsSome (rank_at self.now id) → F.pre fits id }
        ensures none { IfNone result (NoneFits self.now (λ id answer. F.post fits id answer)) }
        ensures greatest { IfSome result
            (IsGreatestBy self.now (λ id answer. F.post fits id answer)) }
    {
        self.heap.greatest_where(fits)
    }

    /// A set that lacks none of the patches.
    pub fn words(&self) -> &PatchWords
        ensures { HasRanked self.now result.now }
    {
        &self.words
    }
}
