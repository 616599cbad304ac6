//! Which patch comes next.

ghost use Rattle.std.specs.Prelude.{◌≡◌, ℕ, ◌<◌, ◌≤◌, Bool, true, not, ◌||◌, length, nat_lt, slice_index, MatchOption};
ghost use Rattle.token_words.specs.declared.keeping.TheConstants.{LAST_EPOCH};
ghost use Rattle.tier_model.specs.Tiers.{count, sizes_of};
ghost use Rattle.tier_model.specs.Choices.{Told, is_admissible, candidate};
ghost use Rattle.tier_model.specs.Turns.{fitting};
ghost use Rattle.transfer_step.specs.TurnWords.{told_of, may_come, sought};

use crate::supplies::Supply;
use patch_file::Index;
use tier_budget::Tier;
use token_words::{Keeper, LAST_EPOCH};

/// The size of a patch's body, in bytes.
pub fn body_size(index: &Index, patch: u32) -> u64
    requires { patch < length (sizes_of index.now) }
    ensures { result ≡ slice_index (sizes_of index.now) patch }
{
    index.body_size(patch)
}

/// Whether the patch may still come, which without words every patch may.
fn may_rise<K: Keeper>(keeper: &K, patch: u32) -> bool
    requires { K.has_words ≡ true → patch < K.patches keeper.now }
    ensures { result ≡ (not K.has_words || nat_lt (K.epochs keeper.now patch) LAST_EPOCH) }
{
    keeper.epoch(patch) < LAST_EPOCH
}

/// Whether the patch may come to a tier with so much room beside its pinned patches.
fn is_admissible<B: Supply, K: Keeper>(
    index: &Index,
    below: &B,
    keeper: &K,
    room: u64,
    patch: u32,
) -> bool
    requires index { patch < length (sizes_of index.now) }
    requires supply { patch < length (B.sizes (B.place below.now)) }
    requires words { K.has_words ≡ true → patch < K.patches keeper.now }
    ensures { result
        ≡ may_come (told_of (B.has (B.place below.now)) K.has_words (K.epochs keeper.now))
        (sizes_of index.now) room patch }
{
    body_size(index, patch) <= room && below.has(patch) && may_rise(keeper, patch)
}

/// The highest missing patch that passes the test, which is the candidate of a tier that is told so that the
/// test answers which patches are admissible.
fn find_missing<F: Fn(u32) -> bool>(tier: &mut Tier, fits: F) -> Option<u32>
    requires { (p : ℕ) → p < count tier.old.state → F.pre fits p }
    ensures candidate { (told : Told)
        → ((p : ℕ) (answer : Bool) → p < count tier.old.state → F.post fits p answer
        → is_admissible told tier.old.state p ≡ answer)
        → result ≡ candidate told tier.old.state }
    ensures same { tier.new.state ≡ tier.old.state }
    ensures spare { tier.new.spare ≡ tier.old.spare }
    ensures records { tier.new.records ≡ tier.old.records }
{
    tier.greatest_missing(fits)
}

/// The candidate of the tier.
fn find_candidate<B: Supply, K: Keeper>(
    index: &Index,
    tier: &mut Tier,
    below: &B,
    keeper: &K,
) -> Option<u32>
    requires index { sizes_of index.now ≡ tier.old.state.sizes }
    requires supply { B.sizes (B.place below.now) ≡ tier.old.state.sizes }
    requires words { K.has_words ≡ true → count tier.old.state ≤ K.patches keeper.now }
    ensures candidate { result
        ≡ candidate (told_of (B.has (B.place below.now)) K.has_words (K.epochs keeper.now))
        tier.old.state }
    ensures same { tier.new.state ≡ tier.old.state }
    ensures spare { tier.new.spare ≡ tier.old.spare }
    ensures records { tier.new.records ≡ tier.old.records }
{
    if !below.may_serve(tier) {
        return None;
    }
    let room = tier.budget().saturating_sub(tier.pinned_bytes());
    find_missing(
        tier,
        |patch: u32| -> bool
            requires index { patch < length (sizes_of index.now) }
            requires supply { patch < length (B.sizes (B.place below.now)) }
            requires words { K.has_words ≡ true → patch < K.patches keeper.now }
            ensures { result
                ≡ may_come
                (told_of (B.has (B.place below.entry.now)) K.has_words
                (K.epochs keeper.entry.now)) (sizes_of index.entry.now) room patch }
        { is_admissible(index, below, keeper, room, patch) },
    )
}

/// The candidate, where fewer patches come than the tier is wide.
pub fn seek<B: Supply, K: Keeper>(
    index: &Index,
    tier: &mut Tier,
    below: &B,
    keeper: &K,
) -> Option<u32>
    requires index { sizes_of index.now ≡ tier.old.state.sizes }
    requires supply { B.sizes (B.place below.now) ≡ tier.old.state.sizes }
    requires words { K.has_words ≡ true → count tier.old.state ≤ K.patches keeper.now }
    ensures sought { result
        ≡ sought (told_of (B.has (B.place below.now)) K.has_words (K.epochs keeper.now))
        tier.old.state }
    ensures same { tier.new.state ≡ tier.old.state }
    ensures spare { tier.new.spare ≡ tier.old.spare }
    ensures records { tier.new.records ≡ tier.old.records }
{
    if tier.coming().len() < tier.width() as usize {
        find_candidate(index, tier, below, keeper)
    } else {
        None
    }
}

/// The patch, if there is room for its body.
pub fn fitting(index: &Index, tier: &Tier, patch: Option<u32>) -> Option<u32>
    requires index { sizes_of index.now ≡ tier.now.state.sizes }
    requires within { MatchOption patch (Unit {0}) (λ p. p < count tier.now.state) }
    ensures { result ≡ fitting tier.now.state patch }
{
    match patch {
        Some(patch) if body_size(index, patch) <= tier.budget() - tier.load() => Some(patch),
        _ => None,
    }
}
