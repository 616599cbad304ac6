//! The laws of reached detail: what a settling brings to the top tier, and the cut of the round behind it.
//!
//! Code is only the laws' names, on functions that do nothing. The lemmas that lead to them stand in
//! `specs/`.
#![tactic(auto)]

ghost use Rattle.std.specs.Prelude.{◌≡◌, ℕ, suc, ◌+◌, ◌*◌, ◌<◌, ◌≤◌, Bool, true, false, List, [], ◌∷◌, length, Some, None, slice_get, if◌then◌else◌};
ghost use Rattle.std.specs.List.{AllByRecursion};
ghost use Rattle.token_words.specs.declared.keeping.TheConstants.{LAST_EPOCH};
ghost use Rattle.file_model.specs.declared.fields.Try.{Try};
ghost use Rattle.file_model.specs.Lists.{IndexLists, SeenBody};
ghost use Rattle.mesh_model.specs.Meshes.{IsMesh};
ghost use Rattle.round_model.specs.Order.{Rules};
ghost use Rattle.round_model.specs.Rounds.{has, is_wanted, round_of};
ghost use Rattle.round_laws.specs.Ascending.{IsInnerNode};
ghost use Rattle.round_laws.specs.Cuts.{IsRootOrWanted};
ghost use Rattle.round_laws.specs.Parents.{FallsAlong};
ghost use Rattle.tier_model.specs.declared.turns.Turn.{Turn};
ghost use Rattle.tier_model.specs.Places.{is_marked};
ghost use Rattle.tier_model.specs.Tiers.{TierState, count, kept_wish, is_held, IsTier};
ghost use Rattle.tier_model.specs.Choices.{Told};
ghost use Rattle.tier_laws.specs.Follows.{AtRest};
ghost use Rattle.tier_model.specs.Turns.{Board, begun, IsTurn};
ghost use Rattle.tier_model.specs.Chains.{Chain, has_below, told_at, opened_tiers};
ghost use Rattle.tier_model.specs.Settling.{TurnsToIdle, Settles};
ghost use Rattle.settling_laws.specs.Stages.{sum_below};
ghost use Rattle.detail_laws.specs.Needs.{KeepsBase, IsCalm, IsTierReady, GoWell, IsHeldIn, AreReady};
ghost use Rattle.detail_laws.specs.Gathers.{Gathers};
ghost use Rattle.detail_laws.specs.AtRest.{HasRoom};
ghost use Rattle.detail_laws.specs.TurnsLeft.{is_due, turns_left, HoldsNeeded};
ghost use Rattle.detail_laws.specs.ExactTurns.{IsStraight, BeginsWithBase};
ghost use Rattle.round_laws.specs.Wanted.{FitsWanted, AreGranted, IsOfWanted};
ghost use Rattle.detail_laws.specs.Wanted.{SettlesWell, IsRoundOf};

/// A tier at rest, in a settling that went well so far, holds each patch that is wished and that the tier below
/// has, where there is room for all that is needed.
pub fn a_tier_at_rest_holds_what_is_wished()
    ensures holds { (told : Told) (s : TierState) (used spent : ℕ → Bool) (p : ℕ) → 1 ≤ s.width
        → AtRest told s → Gathers told s used spent → HasRoom used s → p < count s
        → is_marked s.base p ≡ false → 0 < kept_wish s p → told.has p ≡ true
        → is_held s p ≡ true }
{}

/// Tiers settle, which have room for all that is wished, passed over or in use, where nothing is aside, epochs
/// are low and no fetch faults. Then the top tier holds each wished patch that stands below these tiers.
pub fn settling_brings_what_is_wished()
    ensures holds { (board : Board) (used : ℕ → ℕ → Bool) (base : List Bool) (k : ℕ)
        (a c : Chain) (log : List (ℕ × Turn)) → Settles board (suc k) a log c
        → AreReady board used base (suc k) a → GoWell used log → (p : ℕ)
        → p < length base → is_marked base p ≡ false → 0 < board.wish p
        → has_below a.tiers k p ≡ true → IsHeldIn c.tiers 0 p }
{}

/// Where the root and the wanted nodes fit, a round that is through with all its tries granted has every inner node
/// in its set that the view wants. Whatever was answered, it tries patches of such nodes alone.
pub fn a_granted_round_has_all_that_is_wanted()
    ensures full { (rules : Rules) (answers : List ℕ) → IsMesh rules.mesh → FallsAlong rules
        → FitsWanted rules → (round_of rules answers).at ≡ None
        → AreGranted (round_of rules answers).tries → (v : ℕ) → IsInnerNode rules v
        → is_wanted rules v ≡ true → has (round_of rules answers).set v ≡ true }
    ensures wanted { (rules : Rules) (answers : List ℕ)
        → AllByRecursion (λ (t : Try). IsOfWanted rules t.patch) (round_of rules answers).tries }
{}

/// A chain settles, with room for what is wished, and a round of a posted view follows. Then the round's cut is
/// exactly the root and the nodes, other than root and sinks, that the view wants.
pub fn settling_reaches_the_wanted_detail()
    ensures reached { (rules : Rules) (board : Board) (used : ℕ → ℕ → Bool) (a c : Chain)
        (log : List (ℕ × Turn)) (answers : List ℕ) → SettlesWell rules board used a c log
        → IsRoundOf rules board c.epochs answers → (v : ℕ)
        → (has (round_of rules answers).set v ≡ true → IsRootOrWanted rules v)
        × (IsRootOrWanted rules v → has (round_of rules answers).set v ≡ true) }
{}

/// Where no patch has to leave, a settling of one tier takes one turn to reserve, one to fetch and one to hold each
/// patch that comes, and the idle one.
pub fn a_straight_settling_takes_so_many_turns()
    ensures straight { (board : Board) (k : ℕ) (a : Chain) (used : ℕ → Bool) (s : TierState)
        → IsTierReady board used s → ((p : ℕ) → p < count s → a.epochs p + 2 < LAST_EPOCH)
        → HoldsNeeded (told_at a k) used (begun board s) → IsStraight board k a used s }
    ensures exact { (board : Board) (used : ℕ → ℕ → Bool) (k : ℕ) (a b : Chain)
        (log : List (ℕ × Turn)) (s : TierState) → TurnsToIdle board k a log b
        → slice_get a.tiers k ≡ Some s → GoWell used log → IsStraight board k a (used k) s
        → length log ≡ turns_left (told_at a k) (begun board s) + 1 }
    ensures at_first { (told : Told) (s : TierState) → s.coming ≡ []
        → ((p : ℕ) → is_due told s p ≡ true → is_held s p ≡ false)
        → turns_left told s
        ≡ 3 * sum_below (count s) (λ p. if is_due told s p then 1 else 0) }
    ensures beside_base { (told : Told) (s : TierState) → BeginsWithBase told s
        → turns_left told s + 3 * sum_below (count s) (λ p. if is_marked s.base p then 1 else 0)
        ≡ 3 * count s }
{}

/// At the opening nothing is aside or was passed over, and in a run base patches stay where they are.
pub fn base_patches_stay()
    ensures opened { (index : IndexLists) (body : ℕ → SeenBody) (budget : ℕ) (budgets : List ℕ)
        (width k : ℕ) (t : TierState)
        → slice_get (opened_tiers index body (budget ∷ budgets) width) k ≡ Some t
        → (used : ℕ → Bool) → KeepsBase t × IsCalm used t }
    ensures turned { (board : Board) (told : Told) (s : TierState) (answer : Turn)
        (after : TierState) → IsTier s → IsTurn board told s answer after → KeepsBase s
        → KeepsBase after }
{}
