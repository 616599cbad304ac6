//! The heap of the patches that are missing, by their wishes.

ghost use Rattle.std.specs.Prelude.{◌≡◌, ℕ, ◌<◌, ◌≤◌, false, length, slice_index};
ghost use Rattle.tier_model.specs.Places.{is_marked};
ghost use Rattle.tier_budget.specs.Heads.{bodies_in};
ghost use Rattle.tier_budget.specs.Heaps.{missing_told, IsHeapOf, Refreshes};

use crate::coming::comes;
use crate::marks::{Marks, has_mark};
use crate::missing_heap::MissingHeap;
use patch_file::Body;
use std::sync::Arc;
use tier_model::Coming;

/// The rank of a patch that is missing, None of one that isn't.
pub fn rank_of_missing(
    wishes: &[u64],
    base: &[bool],
    held: &[Option<Arc<Body>>],
    coming: &[Coming],
    is_aside: bool,
    patch: u32,
) -> Option<u64>
    requires wishes { patch < length wishes.now }
    requires base { patch < length base.now }
    requires held { patch < length held.now }
    ensures { result
        ≡ missing_told wishes.now base.now (bodies_in held.now) coming.now is_aside patch }
{
    let at = patch as usize;
    let is_away = held[at].is_none() && !comes(coming, patch) && !is_aside;
    if 0 < wishes[at] && !has_mark(base, patch) && is_away {
        Some(wishes[at])
    } else {
        None
    }
}

/// The listed patches are put aside no more.
pub fn seek_again(
    missing: &mut MissingHeap,
    listed: &[u32],
    wishes: &[u64],
    base: &[bool],
    held: &[Option<Arc<Body>>],
    coming: &[Coming],
)
    requires patches { (i : ℕ) → i < length listed.now
        → slice_index listed.now i < length missing.old }
    requires wishes { length wishes.now ≡ length missing.old }
    requires base { length base.now ≡ length missing.old }
    requires held { length held.now ≡ length missing.old }
    ensures { Refreshes missing.old (length listed.now) listed.now
        (missing_told wishes.now base.now (bodies_in held.now) coming.now false) missing.new }
{
    for patch in listed {
        let rank = rank_of_missing(wishes, base, held, coming, false, *patch);
        missing.set(*patch, rank);
    }
}

/// Each patch has its rank.
pub fn rank_missing(
    missing: &mut MissingHeap,
    wishes: &[u64],
    base: &[bool],
    held: &[Option<Arc<Body>>],
    coming: &[Coming],
    aside: &Marks,
)
    requires few { length missing.old ≤ 65536 }
    requires wishes { length wishes.now ≡ length missing.old }
    requires base { length base.now ≡ length missing.old }
    requires held { length held.now ≡ length missing.old }
    requires aside { length aside.now ≡ length missing.old }
    ensures { IsHeapOf (length missing.old)
        (λ p. missing_told wishes.now base.now (bodies_in held.now) coming.now
        (is_marked aside.now p) p)
        missing.new }
{
    for patch in 0..held.len() as u32 {
        let rank = rank_of_missing(wishes, base, held, coming, aside.has(patch), patch);
        missing.set(patch, rank);
    }
}
