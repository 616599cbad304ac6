//! A settling read from a text turn by turn: all is determined but what the fetches of the lowest tier gave, which is
//! read.
//!
//! Code is only the laws' names, on functions that do nothing. The definitions and the lemmas that lead to the laws
//! stand in `specs/`.
#![tactic(auto)]

ghost use Rattle.std.specs.Prelude.{◌≡◌, ℕ, ◌^◌, ◌≤◌, List, length, Some};
ghost use Rattle.file_model.specs.Lists.{BodyLists};
ghost use Rattle.tier_model.specs.declared.turns.Turn.{Turn};
ghost use Rattle.run_model.specs.Worlds.{patch_count};
ghost use Rattle.run_model.specs.States.{State};
ghost use Rattle.run_model.specs.Lines.{SettlesTo};
ghost use Rattle.run_laws.specs.BlankRuns.{blank_state};
ghost use Rattle.run_laws.specs.Sound.{IsSound};
ghost use Rattle.audit_spelling.specs.Spellings.{most_32};
ghost use Rattle.audit_lines.specs.Readers.{Reads};
ghost use Rattle.audit_settling.specs.Settlings.{Settling, IsSettling, Standing, Moved, read_turn, IsTurnRead, read_tiers, AreTiersRead, FitTurns, Settled};
ghost use Rattle.audit_settling.specs.TurnsRead.{TurnRead};
ghost use Rattle.audit_settling.specs.SettlingsBack.{ReadsSettling};

/// A turn, and the settling of the first so many tiers, are read exactly where their texts stand.
pub fn a_settling_is_read_by_its_outcomes()
    ensures turn { (a : Settling) → 1 ≤ patch_count a.world → patch_count a.world ≤ 10 ^ 19 → (k : ℕ)
        (r : Standing) → Reads (read_turn a k r) (IsTurnRead a k r) }
    ensures tiers { (a : Settling) → 1 ≤ patch_count a.world → patch_count a.world ≤ 10 ^ 19 → (n : ℕ)
        (r : Standing) → Reads (read_tiers a n r) (AreTiersRead a n r) }
{}

/// A turn that is read is one that the tier can make, and its text is the turn's line.
pub fn a_turn_that_is_read_can_be_made()
    ensures { (a : Settling) → IsSettling a → (k : ℕ) (r : Standing)
        → length r.state.chain.tiers ≡ length a.world.budgets → (line : ℕ) (m : Moved) (text : List ℕ)
        → IsTurnRead a k r line m text → TurnRead a k r m text }
{}

/// What is read as a settling is one: the tiers settle by these turns, and the text is their lines.
pub fn a_settling_that_is_read_can_be_made()
    ensures { (a : Settling) → IsSettling a → (n : ℕ) (r : Standing) (line : ℕ) (s : Standing)
        (text : List ℕ) → length r.state.chain.tiers ≡ length a.world.budgets
        → AreTiersRead a n r line s text → Settled a n r s text }
{}

/// Where the file's bodies are told, a settling that tiers of a sound state can make, and whose faults are of their
/// types, is read from its lines, also from a sound state that is the same but for bytes of bodies; and it leads to one
/// that is the same but for them.
pub fn a_settling_that_can_be_made_is_read()
    ensures { (a : Settling) → IsSettling a → (bodies : List BodyLists) → a.world.bodies ≡ Some bodies
        → (n : ℕ) → n ≤ most_32 → (s b : State) (turns : List (ℕ × Turn)) → SettlesTo a.world n s turns b
        → FitTurns turns → IsSound a.world s → (r : Standing) → IsSound a.world r.state
        → blank_state s ≡ blank_state r.state → (line : ℕ) → ReadsSettling a n r line turns b }
{}
