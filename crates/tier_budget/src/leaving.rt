//! The heap of the patches that may leave, by their wishes.

ghost use Rattle.std.specs.Prelude.{◌≡◌, ℕ, ◌<◌, ◌≤◌, false, length, slice_index};
ghost use Rattle.tier_model.specs.Places.{is_marked};
ghost use Rattle.tier_budget.specs.Heads.{bodies_in};
ghost use Rattle.tier_budget.specs.Heaps.{leaving_told, IsHeapOf, Refreshes};

use crate::marks::Marks;
use patch_file::Body;
use std::sync::Arc;
use tier_heap::PairHeap;

/// The rank of a patch that may leave, None of one that may not.
pub fn rank_to_leave(
    held: &[Option<Arc<Body>>],
    pinned: &[bool],
    is_passed: bool,
    wishes: &[u64],
    patch: u32,
) -> Option<u64>
    requires held { patch < length held.now }
    requires pinned { patch < length pinned.now }
    requires wishes { patch < length wishes.now }
    ensures { result ≡ leaving_told (bodies_in held.now) pinned.now is_passed wishes.now patch }
{
    let at = patch as usize;
    if held[at].is_some() && !pinned[at] && !is_passed {
        Some(wishes[at])
    } else {
        None
    }
}

/// The listed patches are passed over no more.
pub fn put_back(
    leaving: &mut PairHeap,
    listed: &[u32],
    held: &[Option<Arc<Body>>],
    pinned: &[bool],
    wishes: &[u64],
)
    requires patches { (i : ℕ) → i < length listed.now
        → slice_index listed.now i < length leaving.old }
    requires held { length held.now ≡ length leaving.old }
    requires pinned { length pinned.now ≡ length leaving.old }
    requires wishes { length wishes.now ≡ length leaving.old }
    ensures { Refreshes leaving.old (length listed.now) listed.now
        (leaving_told (bodies_in held.now) pinned.now false wishes.now) leaving.new }
{
    for patch in listed {
        let rank = rank_to_leave(held, pinned, false, wishes, *patch);
        leaving.set(*patch, rank);
    }
}

/// Each patch has its rank.
pub fn rank_leaving(
    leaving: &mut PairHeap,
    held: &[Option<Arc<Body>>],
    pinned: &[bool],
    passed: &Marks,
    wishes: &[u64],
)
    requires few { length leaving.old ≤ 65536 }
    requires held { length held.now ≡ length leaving.old }
    requires pinned { length pinned.now ≡ length leaving.old }
    requires passed { length passed.now ≡ length leaving.old }
    requires wishes { length wishes.now ≡ length leaving.old }
    ensures { IsHeapOf (length leaving.old)
        (λ p. leaving_told (bodies_in held.now) pinned.now (is_marked passed.now p) wishes.now p)
        leaving.new }
{
    for patch in 0..held.len() as u32 {
        let rank = rank_to_leave(held, pinned, passed.has(patch), wishes, patch);
        leaving.set(patch, rank);
    }
}
