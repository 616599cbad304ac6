//! One turn of a tier of a chain, with all that it does as one fact.

ghost use Rattle.std.specs.Prelude.{◌≡◌, ◌≢◌, suc, ◌<◌, ◌≤◌, true, Some, length, slice_get, IfOk, OnErr};
ghost use Rattle.view_outside.specs.Files.{HasFile, file_bytes};
ghost use Rattle.tier_model.specs.Tiers.{TierState};
ghost use Rattle.transfer_step.specs.TurnWords.{board_of};
ghost use Rattle.cache_chain.specs.ChainStates.{states_of};
ghost use Rattle.cache_chain.specs.Turning.{TakesWishes};
ghost use Rattle.cache_chain.specs.WordTurns.{words_of};
ghost use Rattle.cache_chain.specs.TurnRuns.{setting_of, moment_of, MakesTurn, RefusesTurn};
ghost use Rattle.cache_chain.specs.SettleRuns.{MayTurn};

use crate::among_tiers::turn_among;
use grid_vertex::NoMemory;
use patch_file::Index;
use std::alloc::Global;
use tier_budget::{Tier, Turn, Wishes};
use token_words::{Keeper, NoWords};
use view_outside::Store;

/// A turn of the top tier, which changes the words.
fn turn_top<'s, S: Store, W: Wishes, K: Keeper>(
    alloc: Global,
    index: &'s Index,
    tiers: &mut [Tier],
    tier: u32,
    store: &'s mut S,
    file: u32,
    wishes: &W,
    keeper: &mut K,
) -> Result<Turn, NoMemory>
    requires has_words { K.has_words ≡ true }
    requires tier { tier < length tiers.old }
    requires top { tier ≡ 0 }
    requires file { HasFile (S.files store.old) file }
    requires patches { length index.now.fields ≤ W.patches wishes.now }
    requires may { MayTurn
        (setting_of (board_of (W.wish_of wishes.now) (W.version_of wishes.now)) K.tells_sets
        K.tells_misses index.now (file_bytes (S.files store.old) file))
        (moment_of (states_of tiers.old)
        (words_of (K.patches keeper.old) (K.epochs keeper.old) (K.pinned keeper.old)
        (K.session_uses keeper.old) (K.session_locks keeper.old) (K.misses keeper.old))
        (S.faults store.old) (S.taken store.old)) }
    ensures made { IfOk result
        (λ answer.
        MakesTurn
        (setting_of (board_of (W.wish_of wishes.now) (W.version_of wishes.now))
        K.tells_sets K.tells_misses index.now (file_bytes (S.files store.old) file))
        tier answer
        (moment_of (states_of tiers.old)
        (words_of (K.patches keeper.old) (K.epochs keeper.old) (K.pinned keeper.old)
        (K.session_uses keeper.old) (K.session_locks keeper.old)
        (K.misses keeper.old)) (S.faults store.old) (S.taken store.old))
        (moment_of (states_of tiers.new)
        (words_of (K.patches keeper.new) (K.epochs keeper.new) (K.pinned keeper.new)
        (K.session_uses keeper.new) (K.session_locks keeper.new)
        (K.misses keeper.new)) (S.faults store.new) (S.taken store.new))) }
    ensures refused { OnErr result
        (RefusesTurn
        (setting_of (board_of (W.wish_of wishes.now) (W.version_of wishes.now)) K.tells_sets
        K.tells_misses index.now (file_bytes (S.files store.old) file)) tier
        (moment_of (states_of tiers.old)
        (words_of (K.patches keeper.old) (K.epochs keeper.old) (K.pinned keeper.old)
        (K.session_uses keeper.old) (K.session_locks keeper.old)
        (K.misses keeper.old)) (S.faults store.old) (S.taken store.old))
        (moment_of (states_of tiers.new)
        (words_of (K.patches keeper.new) (K.epochs keeper.new) (K.pinned keeper.new)
        (K.session_uses keeper.new) (K.session_locks keeper.new)
        (K.misses keeper.new)) (S.faults store.new) (S.taken store.new))) }
    ensures takes { OnErr result
        (TakesWishes (board_of (W.wish_of wishes.now) (W.version_of wishes.now)) tier
        (states_of tiers.old) (states_of tiers.new)) }
    ensures may { MayTurn
        (setting_of (board_of (W.wish_of wishes.now) (W.version_of wishes.now)) K.tells_sets
        K.tells_misses index.now (file_bytes (S.files store.old) file))
        (moment_of (states_of tiers.new)
        (words_of (K.patches keeper.new) (K.epochs keeper.new) (K.pinned keeper.new)
        (K.session_uses keeper.new) (K.session_locks keeper.new) (K.misses keeper.new))
        (S.faults store.new) (S.taken store.new)) }
    ensures many { length tiers.new ≡ length tiers.old }
    ensures upper { (t : TierState) → slice_get (states_of tiers.old) (suc tier) ≡ Some t
        → store.new ≡ store.old }
    ensures files { S.files store.new ≡ S.files store.old }
    ensures place { K.place keeper.new ≡ K.place keeper.old }
{
    turn_among(alloc, index, tiers, tier, store, file, wishes, keeper)
}

/// A turn of a lower tier, which leaves the words.
fn turn_lower<'s, S: Store, W: Wishes, K: Keeper>(
    alloc: Global,
    index: &'s Index,
    tiers: &mut [Tier],
    tier: u32,
    store: &'s mut S,
    file: u32,
    wishes: &W,
    keeper: &mut K,
) -> Result<Turn, NoMemory>
    requires has_words { K.has_words ≡ true }
    requires tier { tier < length tiers.old }
    requires lower { tier ≢ 0 }
    requires file { HasFile (S.files store.old) file }
    requires patches { length index.now.fields ≤ W.patches wishes.now }
    requires may { MayTurn
        (setting_of (board_of (W.wish_of wishes.now) (W.version_of wishes.now)) K.tells_sets
        K.tells_misses index.now (file_bytes (S.files store.old) file))
        (moment_of (states_of tiers.old)
        (words_of (K.patches keeper.old) (K.epochs keeper.old) (K.pinned keeper.old)
        (K.session_uses keeper.old) (K.session_locks keeper.old) (K.misses keeper.old))
        (S.faults store.old) (S.taken store.old)) }
    ensures made { IfOk result
        (λ answer.
        MakesTurn
        (setting_of (board_of (W.wish_of wishes.now) (W.version_of wishes.now))
        K.tells_sets K.tells_misses index.now (file_bytes (S.files store.old) file))
        tier answer
        (moment_of (states_of tiers.old)
        (words_of (K.patches keeper.old) (K.epochs keeper.old) (K.pinned keeper.old)
        (K.session_uses keeper.old) (K.session_locks keeper.old)
        (K.misses keeper.old)) (S.faults store.old) (S.taken store.old))
        (moment_of (states_of tiers.new)
        (words_of (K.patches keeper.new) (K.epochs keeper.new) (K.pinned keeper.new)
        (K.session_uses keeper.new) (K.session_locks keeper.new)
        (K.misses keeper.new)) (S.faults store.new) (S.taken store.new))) }
    ensures refused { OnErr result
        (RefusesTurn
        (setting_of (board_of (W.wish_of wishes.now) (W.version_of wishes.now)) K.tells_sets
        K.tells_misses index.now (file_bytes (S.files store.old) file)) tier
        (moment_of (states_of tiers.old)
        (words_of (K.patches keeper.old) (K.epochs keeper.old) (K.pinned keeper.old)
        (K.session_uses keeper.old) (K.session_locks keeper.old)
        (K.misses keeper.old)) (S.faults store.old) (S.taken store.old))
        (moment_of (states_of tiers.new)
        (words_of (K.patches keeper.new) (K.epochs keeper.new) (K.pinned keeper.new)
        (K.session_uses keeper.new) (K.session_locks keeper.new)
        (K.misses keeper.new)) (S.faults store.new) (S.taken store.new))) }
    ensures takes { OnErr result
        (TakesWishes (board_of (W.wish_of wishes.now) (W.version_of wishes.now)) tier
        (states_of tiers.old) (states_of tiers.new)) }
    ensures may { MayTurn
        (setting_of (board_of (W.wish_of wishes.now) (W.version_of wishes.now)) K.tells_sets
        K.tells_misses index.now (file_bytes (S.files store.old) file))
        (moment_of (states_of tiers.new)
        (words_of (K.patches keeper.new) (K.epochs keeper.new) (K.pinned keeper.new)
        (K.session_uses keeper.new) (K.session_locks keeper.new) (K.misses keeper.new))
        (S.faults store.new) (S.taken store.new)) }
    ensures many { length tiers.new ≡ length tiers.old }
    ensures upper { (t : TierState) → slice_get (states_of tiers.old) (suc tier) ≡ Some t
        → store.new ≡ store.old }
    ensures files { S.files store.new ≡ S.files store.old }
    ensures place { K.place keeper.new ≡ K.place keeper.old }
{
    turn_among(alloc, index, tiers, tier, store, file, wishes, &mut NoWords)
}

/// A turn of the tier of this number; 0 is the top.
pub fn turn_tier<'s, S: Store, W: Wishes, K: Keeper>(
    alloc: Global,
    index: &'s Index,
    tiers: &mut [Tier],
    tier: u32,
    store: &'s mut S,
    file: u32,
    wishes: &W,
    keeper: &mut K,
) -> Result<Turn, NoMemory>
    requires has_words { K.has_words ≡ true }
    requires tier { tier < length tiers.old }
    requires file { HasFile (S.files store.old) file }
    requires patches { length index.now.fields ≤ W.patches wishes.now }
    requires may { MayTurn
        (setting_of (board_of (W.wish_of wishes.now) (W.version_of wishes.now)) K.tells_sets
        K.tells_misses index.now (file_bytes (S.files store.old) file))
        (moment_of (states_of tiers.old)
        (words_of (K.patches keeper.old) (K.epochs keeper.old) (K.pinned keeper.old)
        (K.session_uses keeper.old) (K.session_locks keeper.old) (K.misses keeper.old))
        (S.faults store.old) (S.taken store.old)) }
    ensures made { IfOk result
        (λ answer.
        MakesTurn
        (setting_of (board_of (W.wish_of wishes.now) (W.version_of wishes.now))
        K.tells_sets K.tells_misses index.now (file_bytes (S.files store.old) file))
        tier answer
        (moment_of (states_of tiers.old)
        (words_of (K.patches keeper.old) (K.epochs keeper.old) (K.pinned keeper.old)
        (K.session_uses keeper.old) (K.session_locks keeper.old)
        (K.misses keeper.old)) (S.faults store.old) (S.taken store.old))
        (moment_of (states_of tiers.new)
        (words_of (K.patches keeper.new) (K.epochs keeper.new) (K.pinned keeper.new)
        (K.session_uses keeper.new) (K.session_locks keeper.new)
        (K.misses keeper.new)) (S.faults store.new) (S.taken store.new))) }
    ensures refused { OnErr result
        (RefusesTurn
        (setting_of (board_of (W.wish_of wishes.now) (W.version_of wishes.now)) K.tells_sets
        K.tells_misses index.now (file_bytes (S.files store.old) file)) tier
        (moment_of (states_of tiers.old)
        (words_of (K.patches keeper.old) (K.epochs keeper.old) (K.pinned keeper.old)
        (K.session_uses keeper.old) (K.session_locks keeper.old)
        (K.misses keeper.old)) (S.faults store.old) (S.taken store.old))
        (moment_of (states_of tiers.new)
        (words_of (K.patches keeper.new) (K.epochs keeper.new) (K.pinned keeper.new)
        (K.session_uses keeper.new) (K.session_locks keeper.new)
        (K.misses keeper.new)) (S.faults store.new) (S.taken store.new))) }
    ensures takes { OnErr result
        (TakesWishes (board_of (W.wish_of wishes.now) (W.version_of wishes.now)) tier
        (states_of tiers.old) (states_of tiers.new)) }
    ensures may { MayTurn
        (setting_of (board_of (W.wish_of wishes.now) (W.version_of wishes.now)) K.tells_sets
        K.tells_misses index.now (file_bytes (S.files store.old) file))
        (moment_of (states_of tiers.new)
        (words_of (K.patches keeper.new) (K.epochs keeper.new) (K.pinned keeper.new)
        (K.session_uses keeper.new) (K.session_locks keeper.new) (K.misses keeper.new))
        (S.faults store.new) (S.taken store.new)) }
    ensures many { length tiers.new ≡ length tiers.old }
    ensures upper { (t : TierState) → slice_get (states_of tiers.old) (suc tier) ≡ Some t
        → store.new ≡ store.old }
    ensures files { S.files store.new ≡ S.files store.old }
    ensures place { K.place keeper.new ≡ K.place keeper.old }
{
    if tier == 0 {
        turn_top(alloc, index, tiers, tier, store, file, wishes, keeper)
    } else {
        turn_lower(alloc, index, tiers, tier, store, file, wishes, keeper)
    }
}
