//! The law of settling: turns of one tier until one is idle are few.
//!
//! Code is only the law's name, on a function that does nothing. The lemmas that lead to it stand in
//! `specs/`, where the crate that settles chains cites them.
#![tactic(auto)]

ghost use Rattle.std.specs.Prelude.{◌≡◌, ℕ, ◌+◌, ◌*◌, ◌≤◌, List, length, Some, slice_get};
ghost use Rattle.tier_model.specs.declared.turns.Turn.{Turn};
ghost use Rattle.tier_model.specs.Tiers.{TierState, count, IsTier};
ghost use Rattle.tier_model.specs.Turns.{Board};
ghost use Rattle.tier_model.specs.Chains.{Chain};
ghost use Rattle.tier_model.specs.Settling.{TurnsToIdle};

/// One settling of one tier takes at most six turns a patch, and the idle one, whatever the tier's width and
/// whatever is found outside. So it takes at most 8P + 8 of P patches.
pub fn a_tier_settles_in_few_turns()
    ensures few { (board : Board) (k : ℕ) (a c : Chain) (log : List (ℕ × Turn)) (s : TierState)
        → TurnsToIdle board k a log c → slice_get a.tiers k ≡ Some s → IsTier s
        → length log ≤ 6 * count s + 1 }
    ensures fewer { (board : Board) (k : ℕ) (a c : Chain) (log : List (ℕ × Turn)) (s : TierState)
        → TurnsToIdle board k a log c → slice_get a.tiers k ≡ Some s → IsTier s
        → length log ≤ 8 * count s + 8 }
{}
