//! One turn of a tier of a chain.

ghost use Rattle.std.specs.Prelude.{◌≡◌, ℕ, suc, ◌<◌, ◌≤◌, true, false, Some, None, length, slice_get, ◌++◌, IfOk, OnErr, MatchResult};
ghost use Rattle.view_outside.specs.Faults.{Rose};
ghost use Rattle.view_outside.specs.Files.{file_bytes};
ghost use Rattle.view_outside.specs.Taken.{RisesAtMost};
ghost use Rattle.token_words.specs.Changes.{Stays, SetsStay};
ghost use Rattle.token_words.specs.Sessions.{session_count};
ghost use Rattle.tier_model.specs.Tiers.{TierState, body_at};
ghost use Rattle.tier_model.specs.Answers.{IfGot, IfLost, IfFault, IfChanged, IfEvict, IfKept};
ghost use Rattle.tier_model.specs.Chains.{has_below};
ghost use Rattle.tier_model.specs.Settling.{TurnsAt};
ghost use Rattle.tier_laws.specs.ChainLaws.{IsTopTied};
ghost use Rattle.transfer_step.specs.TurnWords.{board_of, next_size, TurnTakes, misses_in};
ghost use Rattle.cache_chain.specs.ChainStates.{IsFileBody, FindsChanged, IsChain};
ghost use Rattle.cache_chain.specs.Turning.{chain_of, AllKeepWishes, AtLowest, GivesBelow, TakesWishes};
ghost use Rattle.cache_chain.specs.WordTurns.{words_of};
ghost use Rattle.cache_chain.specs.TurnRuns.{setting_of, moment_of, MakesTurn, RefusesTurn};
ghost use Rattle.cache_chain.specs.SettleRuns.{MayTurn};

use super::TierChain;
use crate::tier_turns::turn_tier;
use grid_vertex::NoMemory;
use std::alloc::Global;
use tier_budget::{Turn, Wishes};
use token_words::Keeper;
use view_outside::Store;

impl<'a, S: Store> TierChain<'a, S> {
    /// One turn of the tier of this number; 0 is the top. It fetches from the tier below it, and the lowest from
    /// the store. Condition: the wishes and the words are of the mesh, where the versions agree each tier keeps
    /// these wishes, and the top tier is tied to the words.
    ///
    /// Without memory the tier has begun its turn, which is to take the wishes where their version isn't the
    /// tier's. The words are then as they were, and at most one body was taken from the store.
    pub fn turn<W: Wishes, K: Keeper>(
        &mut self,
        alloc: Global,
        tier: u32,
        wishes: &W,
        keeper: &mut K,
    ) -> Result<Turn, NoMemory>
        requires has_words { K.has_words ≡ true }
        requires tier { tier < length self.old.tiers }
        requires patches { length self.old.mesh.lists.index.fields ≤ W.patches wishes.now }
        requires wishes { AllKeepWishes (board_of (W.wish_of wishes.now) (W.version_of wishes.now))
            self.old.tiers }
        requires words { length self.old.mesh.lists.index.fields ≤ K.patches keeper.old }
        requires tied { IsTopTied (chain_of self.old.tiers (K.epochs keeper.old))
            (K.pinned keeper.old) }

        ensures turned { IfOk result
            (λ answer.
            TurnsAt (board_of (W.wish_of wishes.now) (W.version_of wishes.now)) tier answer
            (chain_of self.old.tiers (K.epochs keeper.old))
            (chain_of self.new.tiers (K.epochs keeper.new))) }
        ensures none { OnErr result
            (TakesWishes (board_of (W.wish_of wishes.now) (W.version_of wishes.now)) tier
            self.old.tiers self.new.tiers) }
        ensures epochs { OnErr result (Stays (K.epochs keeper.old) (K.epochs keeper.new)) }
        ensures got { IfOk result
            (λ answer.
            IfGot answer
            (λ p.
            (s : TierState) → slice_get self.new.tiers tier ≡ Some s
            → GivesBelow
            (IsFileBody self.old.mesh.lists.index
            (file_bytes (S.files self.old.store) self.old.file))
            self.old.tiers tier p (body_at s p))) }
        ensures lost { IfOk result
            (λ answer. IfLost answer (λ p. has_below self.old.tiers tier p ≡ false)) }
        ensures facts { IsChain self.new.mesh.lists.index (S.files self.new.store) self.new.file
            self.new.tiers }
        ensures wishes { AllKeepWishes (board_of (W.wish_of wishes.now) (W.version_of wishes.now))
            self.new.tiers }

        ensures fault { IfOk result
            (λ answer.
            IfFault answer
            (λ _.
            AtLowest self.old.tiers tier
            (Rose (S.faults self.old.store) (S.faults self.new.store)))) }
        ensures changed { IfOk result
            (λ answer.
            IfChanged answer
            (λ p fault.
            AtLowest self.old.tiers tier
            (FindsChanged self.old.mesh.lists.index
            (file_bytes (S.files self.old.store) self.old.file) p
            fault))) }
        ensures taken { slice_get self.old.tiers (suc tier) ≡ None → (s : TierState)
            → slice_get self.old.tiers tier ≡ Some s
            → MatchResult result
            (λ answer.
            TurnTakes s.sizes answer (S.taken self.old.store) (S.taken self.new.store))
            (λ _. RisesAtMost (S.taken self.old.store) (S.taken self.new.store) (next_size s)) }
        ensures upper { (t : TierState) → slice_get self.old.tiers (suc tier) ≡ Some t
            → self.new.store ≡ self.old.store }
        ensures later { S.faults self.old.store ≤ S.faults self.new.store }
        ensures files { S.files self.new.store ≡ S.files self.old.store }

        ensures tied { IsTopTied (chain_of self.new.tiers (K.epochs keeper.new))
            (K.pinned keeper.new) }
        ensures free { tier ≡ 0 → K.tells_sets ≡ true
            → IfOk result
            (λ answer.
            IfEvict answer
            (λ p.
            session_count (λ session. K.session_uses keeper.old session p)
            ≡ 0)) }
        ensures found { K.tells_sets ≡ true
            → IfOk result
            (λ answer.
            IfKept answer
            (λ p uses.
            uses
            ≡ session_count
            (λ session. K.session_uses keeper.old session p))) }
        ensures misses { K.tells_misses ≡ true → MatchResult result
            (λ answer. K.misses keeper.new ≡ K.misses keeper.old ++ misses_in answer)
            (λ _. K.misses keeper.new ≡ K.misses keeper.old) }
        ensures pins { Stays (K.pinned keeper.old) (K.pinned keeper.new) }
        ensures use_sets { K.tells_sets ≡ true
            → SetsStay (K.session_uses keeper.old) (K.session_uses keeper.new) }
        ensures lock_sets { K.tells_sets ≡ true
            → SetsStay (K.session_locks keeper.old) (K.session_locks keeper.new) }
        ensures keeper { (K.place keeper.new ≡ K.place keeper.old)
            × (K.patches keeper.new ≡ K.patches keeper.old) }

        ensures mesh { self.new.mesh ≡ self.old.mesh }
        ensures file { self.new.file ≡ self.old.file }
        ensures lender { self.new.lender ≡ self.old.lender }
    {
        let _ = self.tier_count();
        self.make_turn(alloc, tier, wishes, keeper)
    }

    /// The same, with all that it does as one fact.
    fn make_turn<W: Wishes, K: Keeper>(
        &mut self,
        alloc: Global,
        tier: u32,
        wishes: &W,
        keeper: &mut K,
    ) -> Result<Turn, NoMemory>
        requires has_words { K.has_words ≡ true }
        requires tier { tier < length self.old.tiers }
        requires patches { length self.old.mesh.lists.index.fields ≤ W.patches wishes.now }
        requires may { MayTurn
            (setting_of (board_of (W.wish_of wishes.now) (W.version_of wishes.now)) K.tells_sets
            K.tells_misses self.old.mesh.lists.index
            (file_bytes (S.files self.old.store) self.old.file))
            (moment_of self.old.tiers
            (words_of (K.patches keeper.old) (K.epochs keeper.old) (K.pinned keeper.old)
            (K.session_uses keeper.old) (K.session_locks keeper.old)
            (K.misses keeper.old)) (S.faults self.old.store) (S.taken self.old.store)) }
        ensures made { IfOk result
            (λ answer.
            MakesTurn
            (setting_of (board_of (W.wish_of wishes.now) (W.version_of wishes.now))
            K.tells_sets K.tells_misses self.old.mesh.lists.index
            (file_bytes (S.files self.old.store) self.old.file)) tier answer
            (moment_of self.old.tiers
            (words_of (K.patches keeper.old) (K.epochs keeper.old)
            (K.pinned keeper.old) (K.session_uses keeper.old)
            (K.session_locks keeper.old) (K.misses keeper.old))
            (S.faults self.old.store) (S.taken self.old.store))
            (moment_of self.new.tiers
            (words_of (K.patches keeper.new) (K.epochs keeper.new)
            (K.pinned keeper.new) (K.session_uses keeper.new)
            (K.session_locks keeper.new) (K.misses keeper.new))
            (S.faults self.new.store) (S.taken self.new.store))) }
        ensures refused { OnErr result
            (RefusesTurn
            (setting_of (board_of (W.wish_of wishes.now) (W.version_of wishes.now))
            K.tells_sets K.tells_misses self.old.mesh.lists.index
            (file_bytes (S.files self.old.store) self.old.file)) tier
            (moment_of self.old.tiers
            (words_of (K.patches keeper.old) (K.epochs keeper.old) (K.pinned keeper.old)
            (K.session_uses keeper.old) (K.session_locks keeper.old)
            (K.misses keeper.old)) (S.faults self.old.store)
            (S.taken self.old.store))
            (moment_of self.new.tiers
            (words_of (K.patches keeper.new) (K.epochs keeper.new) (K.pinned keeper.new)
            (K.session_uses keeper.new) (K.session_locks keeper.new)
            (K.misses keeper.new)) (S.faults self.new.store)
            (S.taken self.new.store))) }
        ensures takes { OnErr result
            (TakesWishes (board_of (W.wish_of wishes.now) (W.version_of wishes.now)) tier
            self.old.tiers self.new.tiers) }
        ensures may { MayTurn
            (setting_of (board_of (W.wish_of wishes.now) (W.version_of wishes.now)) K.tells_sets
            K.tells_misses self.old.mesh.lists.index
            (file_bytes (S.files self.old.store) self.old.file))
            (moment_of self.new.tiers
            (words_of (K.patches keeper.new) (K.epochs keeper.new) (K.pinned keeper.new)
            (K.session_uses keeper.new) (K.session_locks keeper.new)
            (K.misses keeper.new)) (S.faults self.new.store) (S.taken self.new.store)) }
        ensures tiers { length self.new.tiers ≡ length self.old.tiers }
        ensures upper { (t : TierState) → slice_get self.old.tiers (suc tier) ≡ Some t
            → self.new.store ≡ self.old.store }
        ensures files { S.files self.new.store ≡ S.files self.old.store }
        ensures place { K.place keeper.new ≡ K.place keeper.old }
        ensures facts { IsChain self.new.mesh.lists.index (S.files self.new.store) self.new.file
            self.new.tiers }
        ensures mesh { self.new.mesh ≡ self.old.mesh }
        ensures file { self.new.file ≡ self.old.file }
        ensures lender { self.new.lender ≡ self.old.lender }
    {
        let index = self.mesh.index();
        turn_tier(
            alloc,
            index,
            &mut self.tiers,
            tier,
            self.store,
            self.file,
            wishes,
            keeper,
        )
    }
}
