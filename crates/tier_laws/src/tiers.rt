//! The laws of tiers, on functions that do nothing. The lemmas that lead to them stand in `specs/`, where
//! the crates that make tiers, turns and chains cite them.

ghost use Rattle.std.specs.Prelude.{◌≡◌, ◌≢◌, ℕ, ◌⊎◌, ◌+◌, ◌≤◌, Bool, true, false, List, [], ◌∷◌, ◌++◌, length, Option, Some, None, slice_get};
ghost use Rattle.file_model.specs.Lists.{IndexLists, SeenBody};
ghost use Rattle.tier_model.specs.declared.turns.Abort.{Abort};
ghost use Rattle.tier_model.specs.declared.turns.Turn.{Turn};
ghost use Rattle.tier_model.specs.declared.turns.Turn.TheVariants.{Reserve, Evict, Got, Lost, Commit};
ghost use Rattle.tier_model.specs.Places.{is_marked, Needs};
ghost use Rattle.tier_model.specs.Tiers.{TierState, size, load, places, body_at, base_marks, IsWidth, IsBodyFor, IsTier, IsOfFile};
ghost use Rattle.tier_model.specs.Changes.{reserved, arrived, aborted, committed, dropped, passed_over, calmed, renewed, ranked, fresh, with_pin};
ghost use Rattle.tier_model.specs.Ranks.{outranks, IsRanking};
ghost use Rattle.tier_model.specs.Choices.{topmost, Chooses, Told};
ghost use Rattle.tier_model.specs.Answers.{IfGot};
ghost use Rattle.tier_model.specs.Turns.{Outcome, Board, ranked_turn_of, IsTurn, BringsBody};
ghost use Rattle.tier_model.specs.Ties.{epochs_after, IsTied};
ghost use Rattle.tier_model.specs.Counts.{entries_of, AreCounted};
ghost use Rattle.tier_model.specs.Chains.{Chain, opened_top, opened};
ghost use Rattle.tier_model.specs.Settling.{Settles};
ghost use Rattle.tier_model.specs.SingleTurns.{single_turn_of};
ghost use Rattle.tier_laws.specs.Follows.{Follows};
ghost use Rattle.tier_model.specs.Keeping.{KeepsSetup, KeepsWishes};
ghost use Rattle.tier_laws.specs.OpeningLaws.{FitsBase};
ghost use Rattle.tier_laws.specs.ChainLaws.{AreTiers, IsTopTied};

/// Each change whose entry the journal may take leaves a tier: its load is within the budget, its journal
/// replays, and its bodies are of their patches.
pub fn a_change_leaves_a_tier()
    ensures reserved { (s : TierState) (p : ℕ) → IsTier s
        → Needs s.width s.pinned (places s) (Reserve p) → load s + size s p ≤ s.budget
        → IsTier (reserved s p) }
    ensures arrived { (s : TierState) (p : ℕ) (body : SeenBody) → IsTier s
        → Needs s.width s.pinned (places s) (Got p) → IsBodyFor s.sizes p body
        → IsTier (arrived s p body) }
    ensures aborted { (s : TierState) (p : ℕ) (why : Abort) → IsTier s
        → Needs s.width s.pinned (places s) (Lost p) → IsTier (aborted s p why) }
    ensures committed { (s : TierState) (p : ℕ) → IsTier s
        → Needs s.width s.pinned (places s) (Commit p) → IsTier (committed s p) }
    ensures dropped { (s : TierState) (p : ℕ) → IsTier s
        → Needs s.width s.pinned (places s) (Evict p) → IsTier (dropped s p) }
    ensures passed_over { (s : TierState) (p : ℕ) → IsTier s → IsTier (passed_over s p) }
    ensures calmed { (s : TierState) → IsTier s → IsTier (calmed s) }
    ensures renewed { (s : TierState) (version : ℕ) → IsTier s → IsTier (renewed s version) }
    ensures ranked { (s : TierState) (wish : ℕ → ℕ) → IsTier s → IsTier (ranked s wish) }
{}

/// A tier begins empty, and patches may be pinned before its first entry.
pub fn a_tier_begins()
    ensures empty { (index : IndexLists) (budget width : ℕ) → IsWidth width
        → IsTier (fresh index budget width) }
    ensures pinned { (s : TierState) (body : SeenBody) → IsTier s → s.journal ≡ []
        → slice_get s.held body.patch ≡ Some None → length body.bytes ≡ size s body.patch
        → load s + size s body.patch ≤ s.budget → IsTier (with_pin s body) }
{}

/// The top tier opens with the base patches, pinned, whose epochs are 1.
pub fn the_top_tier_opens()
    ensures tier { (index : IndexLists) (body : ℕ → SeenBody) (budget width : ℕ) → IsWidth width
        → FitsBase index body budget → IsTier (opened_top index body budget width) }
    ensures of_file { (index : IndexLists) (body : ℕ → SeenBody) (budget width : ℕ)
        → IsOfFile body (opened_top index body budget width) }
    ensures tied { (index : IndexLists) (body : ℕ → SeenBody) (budgets : List ℕ) (budget width : ℕ)
        → IsTied (opened_top index body budget width) (opened index body budgets width).epochs
        (is_marked (base_marks index.fields)) }
    ensures counted { (index : IndexLists) (body : ℕ → SeenBody) (budgets : List ℕ)
        (budget width : ℕ)
        → AreCounted (opened_top index body budget width) (opened index body budgets width).epochs }
{}

/// Wishes rank the patches: of two patches exactly one outranks the other. So one patch of those that fit
/// outranks all others, if any fits, and it is the topmost.
pub fn the_topmost_is_one()
    ensures ranking { (wish : ℕ → ℕ) → IsRanking (outranks wish) }
    ensures chooses { (n : ℕ) (fits : ℕ → Bool) (above : ℕ → ℕ → Bool) → IsRanking above
        → Chooses n fits above (topmost n fits above) }
    ensures one { (n : ℕ) (fits : ℕ → Bool) (above : ℕ → ℕ → Bool) (choice : Option ℕ)
        → IsRanking above → Chooses n fits above choice → choice ≡ topmost n fits above }
{}

/// A turn follows exactly one of the rules.
pub fn a_turn_follows_one_rule()
    ensures follows { (told : Told) (s : TierState) (o : Outcome)
        → Follows told s o (ranked_turn_of told s o) }
    ensures only { (told : Told) (s : TierState) (o : Outcome) (x : Turn × TierState)
        → Follows told s o x → x ≡ ranked_turn_of told s o }
{}

/// A turn leaves a tier of the same setup, with at most one entry more in its journal, whose bodies are
/// still the file's and whose kept wishes are the board's.
pub fn a_turn_leaves_a_tier()
    ensures tier { (board : Board) (told : Told) (s : TierState) (answer : Turn) (after : TierState)
        → IsTier s → IsTurn board told s answer after → BringsBody s.sizes answer after
        → IsTier after }
    ensures setup { (board : Board) (told : Told) (s : TierState) (answer : Turn)
        (after : TierState) → IsTurn board told s answer after → KeepsSetup s after }
    ensures journal { (board : Board) (told : Told) (s : TierState) (answer : Turn)
        (after : TierState) → IsTurn board told s answer after
        → after.journal ≡ s.journal ++ entries_of answer }
    ensures of_file { (body : ℕ → SeenBody) (board : Board) (told : Told) (s : TierState)
        (answer : Turn) (after : TierState) → IsTier s → IsTurn board told s answer after
        → IfGot answer (λ p. body_at after p ≡ body p) → IsOfFile body s → IsOfFile body after }
    ensures wishes { (board : Board) (told : Told) (s : TierState) (answer : Turn)
        (after : TierState) → KeepsWishes board s → IsTurn board told s answer after
        → KeepsWishes board after }
{}

/// A turn of the top tier keeps it tied to the words: it holds a patch exactly where the epoch is odd. An
/// epoch is how often the journal has its patch come or leave, and one more for a base patch.
pub fn a_turn_keeps_the_tie()
    ensures tied { (board : Board) (told : Told) (s : TierState) (answer : Turn) (after : TierState)
        (pinned : ℕ → Bool) → IsTier s → told.top ≡ true → IsTurn board told s answer after
        → IsTied s told.epochs pinned → IsTied after (epochs_after answer told.epochs) pinned }
    ensures counted { (board : Board) (told : Told) (s : TierState) (answer : Turn)
        (after : TierState) → IsTurn board told s answer after → AreCounted s told.epochs
        → AreCounted after (epochs_after answer told.epochs) }
{}

/// Where one patch comes at a time, the first rule that applies is: commit, fetch, reserve if it fits, evict
/// or keep, idle.
pub fn one_patch_comes_at_a_time()
    ensures { (told : Told) (s : TierState) (o : Outcome) → s.width ≡ 1 → length s.coming ≤ 1
        → ranked_turn_of told s o ≡ single_turn_of told s o }
{}

/// Settling leaves tiers, the top tied to its words.
pub fn settling_leaves_tiers()
    ensures tiers { (board : Board) (n : ℕ) (a b : Chain) (log : List (ℕ × Turn)) → AreTiers a
        → Settles board n a log b → AreTiers b }
    ensures tied { (board : Board) (n : ℕ) (a b : Chain) (log : List (ℕ × Turn)) (pinned : ℕ → Bool)
        → AreTiers a → Settles board n a log b → IsTopTied a pinned → IsTopTied b pinned }
{}
