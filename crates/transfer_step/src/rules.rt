//! The rules of a turn, the first that applies.

ghost use Rattle.std.specs.Prelude.{◌≡◌, ℕ, ◌<◌, ◌≤◌, true, None, Some, ◌++◌, IfOk, OnErr, MatchResult};
ghost use Rattle.view_outside.specs.Faults.{Rose};
ghost use Rattle.view_outside.specs.Taken.{RisesAtMost};
ghost use Rattle.token_words.specs.Changes.{Stays, SetsStay};
ghost use Rattle.token_words.specs.Sessions.{session_count};
ghost use Rattle.tier_model.specs.Places.{first_bare, first_coming};
ghost use Rattle.tier_model.specs.Tiers.{count, body_at, sizes_of, IsTier};
ghost use Rattle.tier_model.specs.Changes.{committed};
ghost use Rattle.tier_model.specs.Answers.{IfGot, IfFault, IfChanged, IfEvict, IfKept};
ghost use Rattle.tier_model.specs.Turns.{IsRankedTurn, BringsBody};
ghost use Rattle.tier_model.specs.Ties.{IsTied};
ghost use Rattle.transfer_step.specs.TurnWords.{told_of, next_size, TurnsEpochs, TurnTakes, misses_in};

use crate::admitting::{fitting, seek};
use crate::evicting::evict_or_rest;
use crate::fetching::fetch_patch;
use crate::supplies::Supply;
use grid_vertex::NoMemory;
use patch_file::Index;
use std::alloc::Global;
use tier_budget::{Tier, Turn, first_patch, first_without_body};
use token_words::Keeper;

/// Commits the first patch that comes, which is this one. Condition: all that come have bodies, and the
/// journal has a place.
fn commit_patch<K: Keeper>(tier: &mut Tier, keeper: &mut K, patch: u32)
    requires first { first_coming tier.old.state.coming ≡ Some patch }
    requires bodies { first_bare tier.old.state.coming ≡ None }
    requires place { 1 ≤ tier.old.spare }
    requires words { K.has_words ≡ true → count tier.old.state ≤ K.patches keeper.old }
    requires tied { K.has_words ≡ true
        → IsTied tier.old.state (K.epochs keeper.old) (K.pinned keeper.old) }
    ensures state { tier.new.state ≡ committed tier.old.state patch }
    ensures kept { IsTier tier.new.state }
    ensures records { tier.new.records ≡ tier.old.records }
    ensures epochs { TurnsEpochs K.has_words (Turn.Commit patch) (K.epochs keeper.old)
        (K.epochs keeper.new) }
    ensures misses { K.tells_misses ≡ true → K.misses keeper.new ≡ K.misses keeper.old }
    ensures pins { Stays (K.pinned keeper.old) (K.pinned keeper.new) }
    ensures use_sets { K.tells_sets ≡ true
        → SetsStay (K.session_uses keeper.old) (K.session_uses keeper.new) }
    ensures lock_sets { K.tells_sets ≡ true
        → SetsStay (K.session_locks keeper.old) (K.session_locks keeper.new) }
    ensures keeper { (K.place keeper.new ≡ K.place keeper.old)
        × (K.patches keeper.new ≡ K.patches keeper.old) }
{
    let _ = tier.budget();
    keeper.admit(patch);
    tier.commit();
}

/// Does the first rule that applies. Condition: the journal has a place.
pub fn do_rule<B: Supply, K: Keeper>(
    alloc: Global,
    index: &Index,
    tier: &mut Tier,
    below: &mut B,
    keeper: &mut K,
) -> Result<Turn, NoMemory>
    requires index { sizes_of index.now ≡ tier.old.state.sizes }
    requires supply { B.sizes (B.place below.old) ≡ tier.old.state.sizes }
    requires place { 1 ≤ tier.old.spare }
    requires words { K.has_words ≡ true → count tier.old.state ≤ K.patches keeper.old }
    requires tied { K.has_words ≡ true
        → IsTied tier.old.state (K.epochs keeper.old) (K.pinned keeper.old) }
    ensures answer { IfOk result
        (λ a.
        IsRankedTurn (told_of (B.has (B.place below.old)) K.has_words (K.epochs keeper.old))
        tier.old.state a tier.new.state) }
    ensures none { OnErr result (tier.new.state ≡ tier.old.state) }
    ensures kept { IsTier tier.new.state }
    ensures records { tier.new.records ≡ tier.old.records }
    ensures brings { IfOk result (λ a. BringsBody tier.old.state.sizes a tier.new.state) }
    ensures got { IfOk result
        (λ a. IfGot a (λ p. B.gives (B.place below.old) p (body_at tier.new.state p))) }
    ensures fault { IfOk result
        (λ a. IfFault a (λ _. Rose (B.faults below.old) (B.faults below.new))) }
    ensures changed { IfOk result (λ a. IfChanged a (B.finds (B.place below.old))) }
    ensures taken { B.tells_taken ≡ true → MatchResult result
        (λ a. TurnTakes tier.old.state.sizes a (B.taken below.old) (B.taken below.new))
        (λ _. RisesAtMost (B.taken below.old) (B.taken below.new) (next_size tier.old.state)) }
    ensures later { B.faults below.old ≤ B.faults below.new }
    ensures supply { B.place below.new ≡ B.place below.old }
    ensures epochs { MatchResult result
        (λ a. TurnsEpochs K.has_words a (K.epochs keeper.old) (K.epochs keeper.new))
        (λ _. Stays (K.epochs keeper.old) (K.epochs keeper.new)) }
    ensures free { K.has_words ≡ true → K.tells_sets ≡ true
        → IfOk result
        (λ a.
        IfEvict a
        (λ p. session_count (λ session. K.session_uses keeper.old session p) ≡ 0)) }
    ensures found { K.has_words ≡ true → K.tells_sets ≡ true
        → IfOk result
        (λ a.
        IfKept a
        (λ p uses.
        uses
        ≡ session_count (λ session. K.session_uses keeper.old session p))) }
    ensures misses { K.tells_misses ≡ true → MatchResult result
        (λ a. K.misses keeper.new ≡ K.misses keeper.old ++ misses_in a)
        (λ _. K.misses keeper.new ≡ K.misses keeper.old) }
    ensures pins { Stays (K.pinned keeper.old) (K.pinned keeper.new) }
    ensures use_sets { K.tells_sets ≡ true
        → SetsStay (K.session_uses keeper.old) (K.session_uses keeper.new) }
    ensures lock_sets { K.tells_sets ≡ true
        → SetsStay (K.session_locks keeper.old) (K.session_locks keeper.new) }
    ensures keeper { (K.place keeper.new ≡ K.place keeper.old)
        × (K.patches keeper.new ≡ K.patches keeper.old) }
{
    let _ = tier.budget();
    let ahead = seek(index, tier, below, keeper);
    if let Some(patch) = fitting(index, tier, ahead) {
        tier.reserve(patch);
        return Ok(Turn::Reserve(patch));
    }
    if let Some(patch) = first_without_body(tier.coming()) {
        return fetch_patch(alloc, tier, below, patch);
    }
    if let Some(patch) = first_patch(tier.coming()) {
        commit_patch(tier, keeper, patch);
        return Ok(Turn::Commit(patch));
    }
    Ok(evict_or_rest(tier, keeper, ahead))
}
