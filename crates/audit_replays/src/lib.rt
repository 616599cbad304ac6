//! The journals of a served run are those that a reader takes.
//!
//! Code is only the law's name, on a function that does nothing. The definitions and the lemmas that lead to the law
//! stand in `specs/`.
#![tactic(auto)]

ghost use Rattle.std.specs.Prelude.{◌≡◌, ℕ, ◌<◌, List, length, Some, slice_get};
ghost use Rattle.tier_model.specs.declared.turns.Turn.{Turn};
ghost use Rattle.run_model.specs.Worlds.{World};
ghost use Rattle.serve_model.specs.Journals.{journal_text, ReplaysAt};
ghost use Rattle.audit_journals.specs.Journals.{Replayed, too_many, IsJournal};
ghost use Rattle.audit_replays.specs.TierBooks.{book_at};

/// A journal that is read by a tier's book is one that the tier can have come by; and a journal that the tier can have
/// come by, and that is short, is read from its text.
pub fn a_tiers_journal_is_one_that_it_can_have_come_by()
    ensures came { (w : World) (k budget : ℕ) → slice_get w.budgets k ≡ Some budget → (line : ℕ)
        (r : Replayed) (text : List ℕ) → IsJournal k (book_at w k budget) line r text
        → ReplaysAt w k r.journal }
    ensures read { (w : World) (k : ℕ) (journal : List Turn) (at : ReplaysAt w k journal)
        → length journal < too_many → (line : ℕ)
        → IsJournal k (book_at w k at.budget) line (record { places = at.places; journal = journal })
        (journal_text k journal) }
{}
