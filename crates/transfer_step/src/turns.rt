//! One turn of a tier.

ghost use Rattle.std.specs.Prelude.{◌≡◌, ℕ, ◌≤◌, true, false, ◌++◌, IfOk, OnErr, MatchResult};
ghost use Rattle.view_outside.specs.Faults.{Rose};
ghost use Rattle.view_outside.specs.Taken.{RisesAtMost};
ghost use Rattle.token_words.specs.Changes.{Stays, SetsStay};
ghost use Rattle.token_words.specs.Sessions.{session_count};
ghost use Rattle.tier_model.specs.Tiers.{count, body_at, sizes_of, IsTier};
ghost use Rattle.tier_model.specs.Answers.{IfGot, IfLost, IfFault, IfChanged, IfEvict, IfKept};
ghost use Rattle.tier_model.specs.Turns.{begun, IsRankedTurn, IsTurn, BringsBody};
ghost use Rattle.tier_model.specs.Ties.{IsTied};
ghost use Rattle.tier_model.specs.Counts.{entries_of};
ghost use Rattle.tier_model.specs.Keeping.{KeepsSetup, KeepsWishes};
ghost use Rattle.transfer_step.specs.TurnWords.{told_of, board_of, next_size, TurnsEpochs, TurnTakes, misses_in};

use crate::rules::do_rule;
use crate::supplies::Supply;
use grid_vertex::NoMemory;
use patch_file::Index;
use std::alloc::Global;
use tier_budget::{Tier, Turn, Wishes};
use token_words::Keeper;

/// Takes the wishes, where their version isn't the tier's. It takes no memory.
pub fn take_wishes<W: Wishes>(tier: &mut Tier, wishes: &W)
    requires { count tier.old.state ≤ W.patches wishes.now }
    ensures state { tier.new.state
        ≡ begun (board_of (W.wish_of wishes.now) (W.version_of wishes.now)) tier.old.state }
    ensures kept { IsTier tier.new.state }
    ensures records { tier.new.records ≡ tier.old.records }
    ensures spare { tier.new.spare ≡ tier.old.spare }
{
    let _ = tier.budget();
    let version = wishes.version();
    if version != tier.version() {
        tier.rank(wishes);
        tier.renew(version);
    }
}

/// One turn of a tier over the wishes that it keeps. Condition: the tier and the supply are of the index,
/// and where the keeper has words, the tier is tied to them.
///
/// Without memory the tier and the words are as they were, and at most one body was taken.
pub fn ranked_turn<B: Supply, K: Keeper>(
    alloc: Global,
    index: &Index,
    tier: &mut Tier,
    below: &mut B,
    keeper: &mut K,
) -> Result<Turn, NoMemory>
    requires index { sizes_of index.now ≡ tier.old.state.sizes }
    requires supply { B.sizes (B.place below.old) ≡ tier.old.state.sizes }
    requires words { K.has_words ≡ true → count tier.old.state ≤ K.patches keeper.old }
    requires tied { K.has_words ≡ true
        → IsTied tier.old.state (K.epochs keeper.old) (K.pinned keeper.old) }

    ensures answer { IfOk result
        (λ a.
        IsRankedTurn (told_of (B.has (B.place below.old)) K.has_words (K.epochs keeper.old))
        tier.old.state a tier.new.state) }
    ensures none { OnErr result (tier.new.state ≡ tier.old.state) }
    ensures kept { IsTier tier.new.state }
    ensures records { tier.new.records ≡ tier.old.records }
    ensures same { KeepsSetup tier.old.state tier.new.state }
    ensures journal { IfOk result
        (λ a. tier.new.state.journal ≡ tier.old.state.journal ++ entries_of a) }
    ensures brings { IfOk result (λ a. BringsBody tier.old.state.sizes a tier.new.state) }

    ensures got { IfOk result
        (λ a. IfGot a (λ p. B.gives (B.place below.old) p (body_at tier.new.state p))) }
    ensures lost { IfOk result (λ a. IfLost a (λ p. B.has (B.place below.old) p ≡ false)) }
    ensures fault { IfOk result
        (λ a. IfFault a (λ _. Rose (B.faults below.old) (B.faults below.new))) }
    ensures changed { IfOk result (λ a. IfChanged a (B.finds (B.place below.old))) }
    ensures taken { B.tells_taken ≡ true → MatchResult result
        (λ a. TurnTakes tier.old.state.sizes a (B.taken below.old) (B.taken below.new))
        (λ _. RisesAtMost (B.taken below.old) (B.taken below.new) (next_size tier.old.state)) }
    ensures later { B.faults below.old ≤ B.faults below.new }
    ensures supply { B.place below.new ≡ B.place below.old }

    ensures epochs { MatchResult result
        (λ a. TurnsEpochs K.has_words a (K.epochs keeper.old) (K.epochs keeper.new))
        (λ _. Stays (K.epochs keeper.old) (K.epochs keeper.new)) }
    ensures tied { K.has_words ≡ true
        → IsTied tier.new.state (K.epochs keeper.new) (K.pinned keeper.new) }
    ensures free { K.has_words ≡ true → K.tells_sets ≡ true
        → IfOk result
        (λ a.
        IfEvict a
        (λ p. session_count (λ session. K.session_uses keeper.old session p) ≡ 0)) }
    ensures found { K.has_words ≡ true → K.tells_sets ≡ true
        → IfOk result
        (λ a.
        IfKept a
        (λ p uses.
        uses
        ≡ session_count (λ session. K.session_uses keeper.old session p))) }
    ensures misses { K.tells_misses ≡ true → MatchResult result
        (λ a. K.misses keeper.new ≡ K.misses keeper.old ++ misses_in a)
        (λ _. K.misses keeper.new ≡ K.misses keeper.old) }
    ensures pins { Stays (K.pinned keeper.old) (K.pinned keeper.new) }
    ensures use_sets { K.tells_sets ≡ true
        → SetsStay (K.session_uses keeper.old) (K.session_uses keeper.new) }
    ensures lock_sets { K.tells_sets ≡ true
        → SetsStay (K.session_locks keeper.old) (K.session_locks keeper.new) }
    ensures keeper { (K.place keeper.new ≡ K.place keeper.old)
        × (K.patches keeper.new ≡ K.patches keeper.old) }
{
    tier.make_place()?;
    do_rule(alloc, index, tier, below, keeper)
}

/// One turn of a tier. It begins with the wishes, where their version isn't the tier's. Condition: the
/// tier, the supply and the wishes are of the index, where the versions agree the tier keeps these wishes,
/// and where the keeper has words, the tier is tied to them.
///
/// Without memory the tier is as a turn begins, the words are as they were, and at most one body was taken.
pub fn turn<B: Supply, W: Wishes, K: Keeper>(
    alloc: Global,
    index: &Index,
    tier: &mut Tier,
    below: &mut B,
    wishes: &W,
    keeper: &mut K,
) -> Result<Turn, NoMemory>
    requires index { sizes_of index.now ≡ tier.old.state.sizes }
    requires supply { B.sizes (B.place below.old) ≡ tier.old.state.sizes }
    requires patches { count tier.old.state ≤ W.patches wishes.now }
    requires wishes { KeepsWishes (board_of (W.wish_of wishes.now) (W.version_of wishes.now))
        tier.old.state }
    requires words { K.has_words ≡ true → count tier.old.state ≤ K.patches keeper.old }
    requires tied { K.has_words ≡ true
        → IsTied tier.old.state (K.epochs keeper.old) (K.pinned keeper.old) }

    ensures answer { IfOk result
        (λ a.
        IsTurn (board_of (W.wish_of wishes.now) (W.version_of wishes.now))
        (told_of (B.has (B.place below.old)) K.has_words (K.epochs keeper.old))
        tier.old.state a tier.new.state) }
    ensures none { OnErr result
        (tier.new.state
        ≡ begun (board_of (W.wish_of wishes.now) (W.version_of wishes.now)) tier.old.state) }
    ensures kept { IsTier tier.new.state }
    ensures records { tier.new.records ≡ tier.old.records }
    ensures same { KeepsSetup tier.old.state tier.new.state }
    ensures wishes { KeepsWishes (board_of (W.wish_of wishes.now) (W.version_of wishes.now))
        tier.new.state }
    ensures journal { IfOk result
        (λ a. tier.new.state.journal ≡ tier.old.state.journal ++ entries_of a) }
    ensures brings { IfOk result (λ a. BringsBody tier.old.state.sizes a tier.new.state) }

    ensures got { IfOk result
        (λ a. IfGot a (λ p. B.gives (B.place below.old) p (body_at tier.new.state p))) }
    ensures lost { IfOk result (λ a. IfLost a (λ p. B.has (B.place below.old) p ≡ false)) }
    ensures fault { IfOk result
        (λ a. IfFault a (λ _. Rose (B.faults below.old) (B.faults below.new))) }
    ensures changed { IfOk result (λ a. IfChanged a (B.finds (B.place below.old))) }
    ensures taken { B.tells_taken ≡ true → MatchResult result
        (λ a. TurnTakes tier.old.state.sizes a (B.taken below.old) (B.taken below.new))
        (λ _. RisesAtMost (B.taken below.old) (B.taken below.new) (next_size tier.old.state)) }
    ensures later { B.faults below.old ≤ B.faults below.new }
    ensures supply { B.place below.new ≡ B.place below.old }

    ensures epochs { MatchResult result
        (λ a. TurnsEpochs K.has_words a (K.epochs keeper.old) (K.epochs keeper.new))
        (λ _. Stays (K.epochs keeper.old) (K.epochs keeper.new)) }
    ensures tied { K.has_words ≡ true
        → IsTied tier.new.state (K.epochs keeper.new) (K.pinned keeper.new) }
    ensures free { K.has_words ≡ true → K.tells_sets ≡ true
        → IfOk result
        (λ a.
        IfEvict a
        (λ p. session_count (λ session. K.session_uses keeper.old session p) ≡ 0)) }
    ensures found { K.has_words ≡ true → K.tells_sets ≡ true
        → IfOk result
        (λ a.
        IfKept a
        (λ p uses.
        uses
        ≡ session_count (λ session. K.session_uses keeper.old session p))) }
    ensures misses { K.tells_misses ≡ true → MatchResult result
        (λ a. K.misses keeper.new ≡ K.misses keeper.old ++ misses_in a)
        (λ _. K.misses keeper.new ≡ K.misses keeper.old) }
    ensures pins { Stays (K.pinned keeper.old) (K.pinned keeper.new) }
    ensures use_sets { K.tells_sets ≡ true
        → SetsStay (K.session_uses keeper.old) (K.session_uses keeper.new) }
    ensures lock_sets { K.tells_sets ≡ true
        → SetsStay (K.session_locks keeper.old) (K.session_locks keeper.new) }
    ensures keeper { (K.place keeper.new ≡ K.place keeper.old)
        × (K.patches keeper.new ≡ K.patches keeper.old) }
{
    take_wishes(tier, wishes);
    ranked_turn(alloc, index, tier, below, keeper)
}
