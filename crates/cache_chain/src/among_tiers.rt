//! One turn of a tier among tiers over a file.

ghost use Rattle.std.specs.Prelude.{◌≡◌, ℕ, suc, ◌<◌, ◌≤◌, true, Some, None, length, slice_get};
ghost use Rattle.view_outside.specs.Files.{HasFile, file_bytes};
ghost use Rattle.tier_model.specs.Tiers.{TierState, is_held, sizes_of};
ghost use Rattle.tier_model.specs.Chains.{has_below};
ghost use Rattle.tier_model.specs.Ties.{IsTied};
ghost use Rattle.tier_model.specs.Keeping.{KeepsWishes};
ghost use Rattle.transfer_step.specs.TurnWords.{told_of, board_of};
ghost use Rattle.cache_chain.specs.ChainStates.{states_of, IsFileBody, FindsChanged};
ghost use Rattle.cache_chain.specs.Turning.{AllKeepWishes, GivesBelow, TurnsState, TurnsTier, HaveSizes};
ghost use Rattle.cache_chain.specs.WordTurns.{words_of, TurnsWords, TurnsStore, NeverFails};

use grid_vertex::NoMemory;
use patch_file::Index;
use std::alloc::Global;
use tier_budget::{Tier, Turn, Wishes};
use token_words::Keeper;
use transfer_step::{StoreSupply, TierSupply, turn};
use view_outside::Store;

/// One turn of a tier over another.
fn turn_over_tier<W: Wishes, K: Keeper>(
    alloc: Global,
    index: &Index,
    tier: &mut Tier,
    below: &Tier,
    wishes: &W,
    keeper: &mut K,
) -> Result<Turn, NoMemory>
    requires sizes { sizes_of index.now ≡ tier.old.state.sizes }
    requires below { below.now.state.sizes ≡ sizes_of index.now }
    requires patches { length (sizes_of index.now) ≤ W.patches wishes.now }
    requires wishes { KeepsWishes (board_of (W.wish_of wishes.now) (W.version_of wishes.now))
        tier.old.state }
    requires words { K.has_words ≡ true → length (sizes_of index.now) ≤ K.patches keeper.old }
    requires tied { K.has_words ≡ true
        → IsTied tier.old.state (K.epochs keeper.old) (K.pinned keeper.old) }
    ensures turns { TurnsState (board_of (W.wish_of wishes.now) (W.version_of wishes.now))
        (told_of (is_held below.now.state) K.has_words (K.epochs keeper.old))
        (λ p body. slice_get below.now.state.held p ≡ Some (Some body)) result tier.old.state
        tier.new.state }
    ensures never { NeverFails result }
    ensures words { TurnsWords K.has_words K.tells_sets K.tells_misses result
        (words_of (K.patches keeper.old) (K.epochs keeper.old) (K.pinned keeper.old)
        (K.session_uses keeper.old) (K.session_locks keeper.old) (K.misses keeper.old))
        (words_of (K.patches keeper.new) (K.epochs keeper.new) (K.pinned keeper.new)
        (K.session_uses keeper.new) (K.session_locks keeper.new) (K.misses keeper.new)) }
    ensures tied { K.has_words ≡ true
        → IsTied tier.new.state (K.epochs keeper.new) (K.pinned keeper.new) }
    ensures place { K.place keeper.new ≡ K.place keeper.old }
{
    turn(
        alloc,
        index,
        tier,
        &mut TierSupply { tier: below },
        wishes,
        keeper,
    )
}

/// One turn of a tier over the file of this number.
fn turn_over_file<'s, S: Store, W: Wishes, K: Keeper>(
    alloc: Global,
    index: &'s Index,
    tier: &mut Tier,
    store: &'s mut S,
    file: u32,
    wishes: &W,
    keeper: &mut K,
) -> Result<Turn, NoMemory>
    requires file { HasFile (S.files store.old) file }
    requires sizes { sizes_of index.now ≡ tier.old.state.sizes }
    requires patches { length (sizes_of index.now) ≤ W.patches wishes.now }
    requires wishes { KeepsWishes (board_of (W.wish_of wishes.now) (W.version_of wishes.now))
        tier.old.state }
    requires words { K.has_words ≡ true → length (sizes_of index.now) ≤ K.patches keeper.old }
    requires tied { K.has_words ≡ true
        → IsTied tier.old.state (K.epochs keeper.old) (K.pinned keeper.old) }
    ensures turns { TurnsState (board_of (W.wish_of wishes.now) (W.version_of wishes.now))
        (told_of (λ _. true) K.has_words (K.epochs keeper.old))
        (IsFileBody index.now (file_bytes (S.files store.old) file)) result tier.old.state
        tier.new.state }
    ensures files { S.files store.new ≡ S.files store.old }
    ensures store { TurnsStore (FindsChanged index.now (file_bytes (S.files store.old) file))
        tier.old.state result (S.faults store.old) (S.faults store.new) (S.taken store.old)
        (S.taken store.new) }
    ensures words { TurnsWords K.has_words K.tells_sets K.tells_misses result
        (words_of (K.patches keeper.old) (K.epochs keeper.old) (K.pinned keeper.old)
        (K.session_uses keeper.old) (K.session_locks keeper.old) (K.misses keeper.old))
        (words_of (K.patches keeper.new) (K.epochs keeper.new) (K.pinned keeper.new)
        (K.session_uses keeper.new) (K.session_locks keeper.new) (K.misses keeper.new)) }
    ensures tied { K.has_words ≡ true
        → IsTied tier.new.state (K.epochs keeper.new) (K.pinned keeper.new) }
    ensures place { K.place keeper.new ≡ K.place keeper.old }
{
    let mut supply = StoreSupply { index, store, file };
    let answer = turn(alloc, index, tier, &mut supply, wishes, keeper);
    let StoreSupply {
        index: _,
        store,
        file: _,
    } = supply;
    let _ = store;
    answer
}

/// One turn of the tier of this number, over the next or over the file of this number. Condition: all tiers are
/// of the index, where the versions agree they keep these wishes, and where the keeper has words, the tier is
/// tied to them.
pub fn turn_among<'s, S: Store, W: Wishes, K: Keeper>(
    alloc: Global,
    index: &'s Index,
    tiers: &mut [Tier],
    tier: u32,
    store: &'s mut S,
    file: u32,
    wishes: &W,
    keeper: &mut K,
) -> Result<Turn, NoMemory>
    requires tier { tier < length tiers.old }
    requires few { length tiers.old ≤ 4 }
    requires file { HasFile (S.files store.old) file }
    requires sizes { HaveSizes (sizes_of index.now) (states_of tiers.old) }
    requires patches { length (sizes_of index.now) ≤ W.patches wishes.now }
    requires wishes { AllKeepWishes (board_of (W.wish_of wishes.now) (W.version_of wishes.now))
        (states_of tiers.old) }
    requires words { K.has_words ≡ true → length (sizes_of index.now) ≤ K.patches keeper.old }
    requires tied { K.has_words ≡ true → (s : TierState)
        → slice_get (states_of tiers.old) tier ≡ Some s
        → IsTied s (K.epochs keeper.old) (K.pinned keeper.old) }
    ensures turned { TurnsTier (board_of (W.wish_of wishes.now) (W.version_of wishes.now))
        (told_of (has_below (states_of tiers.old) tier) K.has_words (K.epochs keeper.old))
        (GivesBelow (IsFileBody index.now (file_bytes (S.files store.old) file))
        (states_of tiers.old) tier) tier result (states_of tiers.old) (states_of tiers.new) }
    ensures files { S.files store.new ≡ S.files store.old }
    ensures lowest { slice_get (states_of tiers.old) (suc tier) ≡ None → (s : TierState)
        → slice_get (states_of tiers.old) tier ≡ Some s
        → TurnsStore (FindsChanged index.now (file_bytes (S.files store.old) file)) s result
        (S.faults store.old) (S.faults store.new) (S.taken store.old) (S.taken store.new) }
    ensures upper { (t : TierState) → slice_get (states_of tiers.old) (suc tier) ≡ Some t
        → (store.new ≡ store.old) × NeverFails result }
    ensures words { TurnsWords K.has_words K.tells_sets K.tells_misses result
        (words_of (K.patches keeper.old) (K.epochs keeper.old) (K.pinned keeper.old)
        (K.session_uses keeper.old) (K.session_locks keeper.old) (K.misses keeper.old))
        (words_of (K.patches keeper.new) (K.epochs keeper.new) (K.pinned keeper.new)
        (K.session_uses keeper.new) (K.session_locks keeper.new) (K.misses keeper.new)) }
    ensures tied { K.has_words ≡ true → (s : TierState)
        → slice_get (states_of tiers.new) tier ≡ Some s
        → IsTied s (K.epochs keeper.new) (K.pinned keeper.new) }
    ensures place { K.place keeper.new ≡ K.place keeper.old }
{
    let place = tier as usize;
    let (upper, lower) = tiers.split_at_mut(place + 1);
    let turned = &mut upper[place];
    match lower.first() {
        Some(below) => turn_over_tier(alloc, index, turned, below, wishes, keeper),
        None => turn_over_file(alloc, index, turned, store, file, wishes, keeper),
    }
}
