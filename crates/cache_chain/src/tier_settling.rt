//! Settling of tiers, with a log.

ghost use Rattle.std.specs.Prelude.{◌≡◌, ◌<◌, ◌≤◌, ◌++◌, ◌∷◌, [], suc, true, length, IfOk, OnErr, MatchResult};
ghost use Rattle.view_outside.specs.Files.{HasFile, file_bytes};
ghost use Rattle.transfer_step.specs.TurnWords.{board_of};
ghost use Rattle.cache_chain.specs.ChainStates.{states_of};
ghost use Rattle.cache_chain.specs.WordTurns.{words_of};
ghost use Rattle.cache_chain.specs.TurnRuns.{setting_of, moment_of, MakesTurn, RefusesTurn};
ghost use Rattle.cache_chain.specs.SettleRuns.{MayTurn, LogsSettling, LogsStop, LogsTier};

use crate::parts::TurnLine;
use crate::tier_turns::turn_tier;
use grid_vertex::NoMemory;
use patch_file::Index;
use std::alloc::Global;
use tier_budget::{Tier, Turn, Wishes};
use token_words::Keeper;
use view_outside::Store;

/// One turn of the tier of this number, which is logged. The log's place is made first, so that each turn that
/// is made is logged.
fn log_turn<S: Store, W: Wishes, K: Keeper>(
    alloc: Global,
    index: &Index,
    tiers: &mut [Tier],
    tier: u32,
    store: &mut S,
    file: u32,
    wishes: &W,
    keeper: &mut K,
    log: &mut Vec<TurnLine>,
) -> Result<Turn, NoMemory>
    requires has_words { K.has_words ≡ true }
    requires tier { tier < length tiers.old }
    requires file { HasFile (S.files store.old) file }
    requires patches { length index.now.fields ≤ W.patches wishes.now }
    requires may { MayTurn
        (setting_of (board_of (W.wish_of wishes.now) (W.version_of wishes.now)) K.tells_sets
        K.tells_misses index.now (file_bytes (S.files store.old) file))
        (moment_of (states_of tiers.old)
        (words_of (K.patches keeper.old) (K.epochs keeper.old) (K.pinned keeper.old)
        (K.session_uses keeper.old) (K.session_locks keeper.old) (K.misses keeper.old))
        (S.faults store.old) (S.taken store.old)) }
    ensures made { IfOk result
        (λ answer.
        MakesTurn
        (setting_of (board_of (W.wish_of wishes.now) (W.version_of wishes.now))
        K.tells_sets K.tells_misses index.now (file_bytes (S.files store.old) file))
        tier answer
        (moment_of (states_of tiers.old)
        (words_of (K.patches keeper.old) (K.epochs keeper.old) (K.pinned keeper.old)
        (K.session_uses keeper.old) (K.session_locks keeper.old)
        (K.misses keeper.old)) (S.faults store.old) (S.taken store.old))
        (moment_of (states_of tiers.new)
        (words_of (K.patches keeper.new) (K.epochs keeper.new) (K.pinned keeper.new)
        (K.session_uses keeper.new) (K.session_locks keeper.new)
        (K.misses keeper.new)) (S.faults store.new) (S.taken store.new))) }
    ensures refused { OnErr result
        (RefusesTurn
        (setting_of (board_of (W.wish_of wishes.now) (W.version_of wishes.now)) K.tells_sets
        K.tells_misses index.now (file_bytes (S.files store.old) file)) tier
        (moment_of (states_of tiers.old)
        (words_of (K.patches keeper.old) (K.epochs keeper.old) (K.pinned keeper.old)
        (K.session_uses keeper.old) (K.session_locks keeper.old)
        (K.misses keeper.old)) (S.faults store.old) (S.taken store.old))
        (moment_of (states_of tiers.new)
        (words_of (K.patches keeper.new) (K.epochs keeper.new) (K.pinned keeper.new)
        (K.session_uses keeper.new) (K.session_locks keeper.new)
        (K.misses keeper.new)) (S.faults store.new) (S.taken store.new))) }
    ensures log { MatchResult result
        (λ answer. log.new.items ≡ log.old.items ++ (record { tier = tier; turn = answer }) ∷ [])
        (λ _. log.new.items ≡ log.old.items) }
    ensures may { MayTurn
        (setting_of (board_of (W.wish_of wishes.now) (W.version_of wishes.now)) K.tells_sets
        K.tells_misses index.now (file_bytes (S.files store.old) file))
        (moment_of (states_of tiers.new)
        (words_of (K.patches keeper.new) (K.epochs keeper.new) (K.pinned keeper.new)
        (K.session_uses keeper.new) (K.session_locks keeper.new) (K.misses keeper.new))
        (S.faults store.new) (S.taken store.new)) }
    ensures many { length tiers.new ≡ length tiers.old }
    ensures files { S.files store.new ≡ S.files store.old }
    ensures place { K.place keeper.new ≡ K.place keeper.old }
{
    log.reserve(1)?;
    let turn = turn_tier(alloc, index, tiers, tier, store, file, wishes, keeper)?;
    log.push_reserved(TurnLine { tier, turn });
    Ok(turn)
}

/// Turns the tier of this number until it is idle, and logs each turn.
fn settle_tier<S: Store, W: Wishes, K: Keeper>(
    alloc: Global,
    index: &Index,
    tiers: &mut [Tier],
    tier: u32,
    store: &mut S,
    file: u32,
    wishes: &W,
    keeper: &mut K,
    log: &mut Vec<TurnLine>,
) -> Result<(), NoMemory>
    requires has_words { K.has_words ≡ true }
    requires tier { tier < length tiers.old }
    requires file { HasFile (S.files store.old) file }
    requires patches { length index.now.fields ≤ W.patches wishes.now }
    requires may { MayTurn
        (setting_of (board_of (W.wish_of wishes.now) (W.version_of wishes.now)) K.tells_sets
        K.tells_misses index.now (file_bytes (S.files store.old) file))
        (moment_of (states_of tiers.old)
        (words_of (K.patches keeper.old) (K.epochs keeper.old) (K.pinned keeper.old)
        (K.session_uses keeper.old) (K.session_locks keeper.old) (K.misses keeper.old))
        (S.faults store.old) (S.taken store.old)) }
    ensures settled { IfOk result
        (λ _.
        LogsTier
        (setting_of (board_of (W.wish_of wishes.now) (W.version_of wishes.now))
        K.tells_sets K.tells_misses index.now (file_bytes (S.files store.old) file))
        tier
        (moment_of (states_of tiers.old)
        (words_of (K.patches keeper.old) (K.epochs keeper.old) (K.pinned keeper.old)
        (K.session_uses keeper.old) (K.session_locks keeper.old)
        (K.misses keeper.old)) (S.faults store.old) (S.taken store.old))
        (moment_of (states_of tiers.new)
        (words_of (K.patches keeper.new) (K.epochs keeper.new) (K.pinned keeper.new)
        (K.session_uses keeper.new) (K.session_locks keeper.new)
        (K.misses keeper.new)) (S.faults store.new) (S.taken store.new))
        log.old.items log.new.items) }
    ensures stopped { OnErr result
        (LogsStop
        (setting_of (board_of (W.wish_of wishes.now) (W.version_of wishes.now)) K.tells_sets
        K.tells_misses index.now (file_bytes (S.files store.old) file))
        (suc tier)
        (moment_of (states_of tiers.old)
        (words_of (K.patches keeper.old) (K.epochs keeper.old) (K.pinned keeper.old)
        (K.session_uses keeper.old) (K.session_locks keeper.old)
        (K.misses keeper.old)) (S.faults store.old) (S.taken store.old))
        (moment_of (states_of tiers.new)
        (words_of (K.patches keeper.new) (K.epochs keeper.new) (K.pinned keeper.new)
        (K.session_uses keeper.new) (K.session_locks keeper.new)
        (K.misses keeper.new)) (S.faults store.new) (S.taken store.new))
        log.old.items log.new.items) }
    ensures may { MayTurn
        (setting_of (board_of (W.wish_of wishes.now) (W.version_of wishes.now)) K.tells_sets
        K.tells_misses index.now (file_bytes (S.files store.old) file))
        (moment_of (states_of tiers.new)
        (words_of (K.patches keeper.new) (K.epochs keeper.new) (K.pinned keeper.new)
        (K.session_uses keeper.new) (K.session_locks keeper.new) (K.misses keeper.new))
        (S.faults store.new) (S.taken store.new)) }
    ensures many { length tiers.new ≡ length tiers.old }
    ensures files { S.files store.new ≡ S.files store.old }
    ensures place { K.place keeper.new ≡ K.place keeper.old }
{
    let most_turns = 8 * index.patch_count() + 8;
    for _turn in 0..most_turns {
        let turn = log_turn(alloc, index, tiers, tier, store, file, wishes, keeper, log)?;
        if turn == Turn::Idle {
            return Ok(());
        }
    }
    unreachable!()
}

/// Turns each tier until it is idle, from the lowest to the top, and logs each turn.
pub fn settle_tiers<S: Store, W: Wishes, K: Keeper>(
    alloc: Global,
    index: &Index,
    tiers: &mut [Tier],
    store: &mut S,
    file: u32,
    wishes: &W,
    keeper: &mut K,
    log: &mut Vec<TurnLine>,
) -> Result<(), NoMemory>
    requires has_words { K.has_words ≡ true }
    requires few { length tiers.old ≤ 4 }
    requires file { HasFile (S.files store.old) file }
    requires patches { length index.now.fields ≤ W.patches wishes.now }
    requires may { MayTurn
        (setting_of (board_of (W.wish_of wishes.now) (W.version_of wishes.now)) K.tells_sets
        K.tells_misses index.now (file_bytes (S.files store.old) file))
        (moment_of (states_of tiers.old)
        (words_of (K.patches keeper.old) (K.epochs keeper.old) (K.pinned keeper.old)
        (K.session_uses keeper.old) (K.session_locks keeper.old) (K.misses keeper.old))
        (S.faults store.old) (S.taken store.old)) }
    ensures settled { IfOk result
        (λ _.
        LogsSettling
        (setting_of (board_of (W.wish_of wishes.now) (W.version_of wishes.now))
        K.tells_sets K.tells_misses index.now (file_bytes (S.files store.old) file))
        (length tiers.old)
        (moment_of (states_of tiers.old)
        (words_of (K.patches keeper.old) (K.epochs keeper.old) (K.pinned keeper.old)
        (K.session_uses keeper.old) (K.session_locks keeper.old)
        (K.misses keeper.old)) (S.faults store.old) (S.taken store.old))
        (moment_of (states_of tiers.new)
        (words_of (K.patches keeper.new) (K.epochs keeper.new) (K.pinned keeper.new)
        (K.session_uses keeper.new) (K.session_locks keeper.new)
        (K.misses keeper.new)) (S.faults store.new) (S.taken store.new))
        log.old.items log.new.items) }
    ensures stopped { OnErr result
        (LogsStop
        (setting_of (board_of (W.wish_of wishes.now) (W.version_of wishes.now)) K.tells_sets
        K.tells_misses index.now (file_bytes (S.files store.old) file))
        (length tiers.old)
        (moment_of (states_of tiers.old)
        (words_of (K.patches keeper.old) (K.epochs keeper.old) (K.pinned keeper.old)
        (K.session_uses keeper.old) (K.session_locks keeper.old)
        (K.misses keeper.old)) (S.faults store.old) (S.taken store.old))
        (moment_of (states_of tiers.new)
        (words_of (K.patches keeper.new) (K.epochs keeper.new) (K.pinned keeper.new)
        (K.session_uses keeper.new) (K.session_locks keeper.new)
        (K.misses keeper.new)) (S.faults store.new) (S.taken store.new))
        log.old.items log.new.items) }
    ensures may { MayTurn
        (setting_of (board_of (W.wish_of wishes.now) (W.version_of wishes.now)) K.tells_sets
        K.tells_misses index.now (file_bytes (S.files store.old) file))
        (moment_of (states_of tiers.new)
        (words_of (K.patches keeper.new) (K.epochs keeper.new) (K.pinned keeper.new)
        (K.session_uses keeper.new) (K.session_locks keeper.new) (K.misses keeper.new))
        (S.faults store.new) (S.taken store.new)) }
    ensures many { length tiers.new ≡ length tiers.old }
    ensures files { S.files store.new ≡ S.files store.old }
    ensures place { K.place keeper.new ≡ K.place keeper.old }
{
    let mut left = tiers.len() as u32;
    while left > 0 {
        left -= 1;
        settle_tier(alloc, index, tiers, left, store, file, wishes, keeper, log)?;
    }
    Ok(())
}
