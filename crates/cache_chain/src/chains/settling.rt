//! Settling.

ghost use Rattle.std.specs.Prelude.{◌≡◌, ◌≤◌, true, length, IfOk, OnErr};
ghost use Rattle.view_outside.specs.Files.{file_bytes};
ghost use Rattle.token_words.specs.Changes.{Stays, SetsStay};
ghost use Rattle.tier_laws.specs.ChainLaws.{IsTopTied};
ghost use Rattle.transfer_step.specs.TurnWords.{board_of};
ghost use Rattle.cache_chain.specs.ChainStates.{IsChain};
ghost use Rattle.cache_chain.specs.Turning.{chain_of, AllKeepWishes};
ghost use Rattle.cache_chain.specs.WordTurns.{words_of};
ghost use Rattle.cache_chain.specs.TurnRuns.{setting_of, moment_of};
ghost use Rattle.cache_chain.specs.SettleRuns.{MayTurn, LogsSettling, LogsStop};

use super::TierChain;
use crate::parts::TurnLine;
use crate::tier_settling::settle_tiers;
use grid_vertex::NoMemory;
use std::alloc::Global;
use tier_budget::Wishes;
use token_words::Keeper;
use view_outside::Store;

impl<'a, S: Store> TierChain<'a, S> {
    /// Turns each tier until it is idle, from the lowest to the top, and logs each turn. A tier of P patches
    /// takes at most 8P + 8 turns. Condition: as of `turn`.
    ///
    /// Without memory the turns that were made stay and are logged, and the refused one leaves what `turn`
    /// says.
    pub fn settle<W: Wishes, K: Keeper>(
        &mut self,
        alloc: Global,
        wishes: &W,
        keeper: &mut K,
        log: &mut Vec<TurnLine>,
    ) -> Result<(), NoMemory>
        requires has_words { K.has_words ≡ true }
        requires patches { length self.old.mesh.lists.index.fields ≤ W.patches wishes.now }
        requires wishes { AllKeepWishes (board_of (W.wish_of wishes.now) (W.version_of wishes.now))
            self.old.tiers }
        requires words { length self.old.mesh.lists.index.fields ≤ K.patches keeper.old }
        requires tied { IsTopTied (chain_of self.old.tiers (K.epochs keeper.old))
            (K.pinned keeper.old) }

        ensures settled { IfOk result
            (λ _.
            LogsSettling
            (setting_of (board_of (W.wish_of wishes.now) (W.version_of wishes.now))
            K.tells_sets K.tells_misses self.old.mesh.lists.index
            (file_bytes (S.files self.old.store) self.old.file))
            (length self.old.tiers)
            (moment_of self.old.tiers
            (words_of (K.patches keeper.old) (K.epochs keeper.old)
            (K.pinned keeper.old) (K.session_uses keeper.old)
            (K.session_locks keeper.old) (K.misses keeper.old))
            (S.faults self.old.store) (S.taken self.old.store))
            (moment_of self.new.tiers
            (words_of (K.patches keeper.new) (K.epochs keeper.new)
            (K.pinned keeper.new) (K.session_uses keeper.new)
            (K.session_locks keeper.new) (K.misses keeper.new))
            (S.faults self.new.store) (S.taken self.new.store)) log.old.items
            log.new.items) }
        ensures stopped { OnErr result
            (LogsStop
            (setting_of (board_of (W.wish_of wishes.now) (W.version_of wishes.now))
            K.tells_sets K.tells_misses self.old.mesh.lists.index
            (file_bytes (S.files self.old.store) self.old.file))
            (length self.old.tiers)
            (moment_of self.old.tiers
            (words_of (K.patches keeper.old) (K.epochs keeper.old) (K.pinned keeper.old)
            (K.session_uses keeper.old) (K.session_locks keeper.old)
            (K.misses keeper.old)) (S.faults self.old.store)
            (S.taken self.old.store))
            (moment_of self.new.tiers
            (words_of (K.patches keeper.new) (K.epochs keeper.new) (K.pinned keeper.new)
            (K.session_uses keeper.new) (K.session_locks keeper.new)
            (K.misses keeper.new)) (S.faults self.new.store)
            (S.taken self.new.store)) log.old.items log.new.items) }
        ensures facts { IsChain self.new.mesh.lists.index (S.files self.new.store) self.new.file
            self.new.tiers }
        ensures wishes { AllKeepWishes (board_of (W.wish_of wishes.now) (W.version_of wishes.now))
            self.new.tiers }
        ensures tied { IsTopTied (chain_of self.new.tiers (K.epochs keeper.new))
            (K.pinned keeper.new) }

        ensures later { S.faults self.old.store ≤ S.faults self.new.store }
        ensures files { S.files self.new.store ≡ S.files self.old.store }
        ensures pins { Stays (K.pinned keeper.old) (K.pinned keeper.new) }
        ensures use_sets { K.tells_sets ≡ true
            → SetsStay (K.session_uses keeper.old) (K.session_uses keeper.new) }
        ensures lock_sets { K.tells_sets ≡ true
            → SetsStay (K.session_locks keeper.old) (K.session_locks keeper.new) }
        ensures keeper { (K.place keeper.new ≡ K.place keeper.old)
            × (K.patches keeper.new ≡ K.patches keeper.old) }

        ensures mesh { self.new.mesh ≡ self.old.mesh }
        ensures file { self.new.file ≡ self.old.file }
        ensures lender { self.new.lender ≡ self.old.lender }
    {
        let _ = self.tier_count();
        self.settle_all(alloc, wishes, keeper, log)
    }

    /// The same, with all that it does as one fact.
    fn settle_all<W: Wishes, K: Keeper>(
        &mut self,
        alloc: Global,
        wishes: &W,
        keeper: &mut K,
        log: &mut Vec<TurnLine>,
    ) -> Result<(), NoMemory>
        requires has_words { K.has_words ≡ true }
        requires patches { length self.old.mesh.lists.index.fields ≤ W.patches wishes.now }
        requires may { MayTurn
            (setting_of (board_of (W.wish_of wishes.now) (W.version_of wishes.now)) K.tells_sets
            K.tells_misses self.old.mesh.lists.index
            (file_bytes (S.files self.old.store) self.old.file))
            (moment_of self.old.tiers
            (words_of (K.patches keeper.old) (K.epochs keeper.old) (K.pinned keeper.old)
            (K.session_uses keeper.old) (K.session_locks keeper.old)
            (K.misses keeper.old)) (S.faults self.old.store) (S.taken self.old.store)) }
        ensures settled { IfOk result
            (λ _.
            LogsSettling
            (setting_of (board_of (W.wish_of wishes.now) (W.version_of wishes.now))
            K.tells_sets K.tells_misses self.old.mesh.lists.index
            (file_bytes (S.files self.old.store) self.old.file))
            (length self.old.tiers)
            (moment_of self.old.tiers
            (words_of (K.patches keeper.old) (K.epochs keeper.old)
            (K.pinned keeper.old) (K.session_uses keeper.old)
            (K.session_locks keeper.old) (K.misses keeper.old))
            (S.faults self.old.store) (S.taken self.old.store))
            (moment_of self.new.tiers
            (words_of (K.patches keeper.new) (K.epochs keeper.new)
            (K.pinned keeper.new) (K.session_uses keeper.new)
            (K.session_locks keeper.new) (K.misses keeper.new))
            (S.faults self.new.store) (S.taken self.new.store)) log.old.items
            log.new.items) }
        ensures stopped { OnErr result
            (LogsStop
            (setting_of (board_of (W.wish_of wishes.now) (W.version_of wishes.now))
            K.tells_sets K.tells_misses self.old.mesh.lists.index
            (file_bytes (S.files self.old.store) self.old.file))
            (length self.old.tiers)
            (moment_of self.old.tiers
            (words_of (K.patches keeper.old) (K.epochs keeper.old) (K.pinned keeper.old)
            (K.session_uses keeper.old) (K.session_locks keeper.old)
            (K.misses keeper.old)) (S.faults self.old.store)
            (S.taken self.old.store))
            (moment_of self.new.tiers
            (words_of (K.patches keeper.new) (K.epochs keeper.new) (K.pinned keeper.new)
            (K.session_uses keeper.new) (K.session_locks keeper.new)
            (K.misses keeper.new)) (S.faults self.new.store)
            (S.taken self.new.store)) log.old.items log.new.items) }
        ensures may { MayTurn
            (setting_of (board_of (W.wish_of wishes.now) (W.version_of wishes.now)) K.tells_sets
            K.tells_misses self.old.mesh.lists.index
            (file_bytes (S.files self.old.store) self.old.file))
            (moment_of self.new.tiers
            (words_of (K.patches keeper.new) (K.epochs keeper.new) (K.pinned keeper.new)
            (K.session_uses keeper.new) (K.session_locks keeper.new)
            (K.misses keeper.new)) (S.faults self.new.store) (S.taken self.new.store)) }
        ensures files { S.files self.new.store ≡ S.files self.old.store }
        ensures place { K.place keeper.new ≡ K.place keeper.old }
        ensures facts { IsChain self.new.mesh.lists.index (S.files self.new.store) self.new.file
            self.new.tiers }
        ensures mesh { self.new.mesh ≡ self.old.mesh }
        ensures file { self.new.file ≡ self.old.file }
        ensures lender { self.new.lender ≡ self.old.lender }
    {
        let index = self.mesh.index();
        settle_tiers(
            alloc,
            index,
            &mut self.tiers,
            self.store,
            self.file,
            wishes,
            keeper,
            log,
        )
    }
}
