//! The journals of tiers, read from a text: what a reader takes is what can be replayed.
//!
//! Code is only the laws' names, on functions that do nothing. The definitions and the lemmas that lead to the laws
//! stand in `specs/`.
#![tactic(auto)]

ghost use Rattle.std.specs.Prelude.{◌≡◌, ◌↔◌, ℕ, ◌^◌, ◌≤◌, Bool, true, List};
ghost use Rattle.tier_model.specs.declared.turns.Turn.{Turn};
ghost use Rattle.tier_model.specs.Places.{Places, Needs};
ghost use Rattle.audit_lines.specs.Readers.{Reads};
ghost use Rattle.audit_spelling.specs.Spellings.{most_32};
ghost use Rattle.audit_journals.specs.Journals.{Book, Replayed, meets_needs, read_entry, IsReadEntry, read_journal, IsJournal};

/// The test of an entry's needs tells exactly whether they are met.
pub fn the_test_of_needs_tells_them()
    ensures { (width : ℕ) (pinned : List Bool) (a : Places) (entry : Turn)
        → (meets_needs width pinned a entry ≡ true) ↔ Needs width pinned a entry }
{}

/// An entry is read exactly where it can come next.
pub fn an_entry_is_read_where_it_can_come()
    ensures { (book : Book) → 1 ≤ book.patches → book.patches ≤ 10 ^ 19 → (r : Replayed)
        → Reads (read_entry book r) (IsReadEntry book r) }
{}

/// A journal is read exactly where it can be replayed, with its entries and the places that they lead to.
pub fn a_journal_is_read_where_it_can_be_replayed()
    ensures { (k : ℕ) → k ≤ most_32 → (book : Book) → 1 ≤ book.patches → book.patches ≤ 10 ^ 19
        → Reads (read_journal k book) (IsJournal k book) }
{}
