//! How the lines of a text with free parts are spelt: the answers of frames, the heads and entries of journals, and
//! the outcomes of fetches.
//!
//! Code is only the records, and the laws' names on functions that do nothing. The definitions and the lemmas that
//! lead to the laws stand in `specs/`.
#![tactic(auto)]

mod spelt;

ghost use Rattle.std.specs.Prelude.{◌≡◌, ℕ, ◌^◌, ◌≤◌, false, List, ◌∷◌};
ghost use Rattle.std.specs.Fmt.{decimal};
ghost use Rattle.text_model.specs.Lines.{line_of};
ghost use Rattle.text_model.specs.StatusText.{file_fault_words};
ghost use Rattle.text_model.specs.FrameText.{try_text};
ghost use Rattle.run_model.specs.LineTexts.{turn_words};
ghost use Rattle.audit_lines.specs.Places.{StandsAhead};
ghost use Rattle.audit_spelling.specs.Words.{words_in, spaced_words, line_with, AreWords, Spells, SpellsWord};
ghost use Rattle.audit_spelling.specs.Spellings.{try_in, IsTry, tries_in, tries_words, AreTries, head_in, head_words, IsHead, fault_in, FitsFault, entry_in, IsEntry, outcome_in, outcome_words, IsTierOutcome};

pub use spelt::{Head, TierTurn};

/// A line that is put together of words has these words, stands as one line, and is the line that is printed of them.
pub fn a_line_has_its_words()
    ensures words { (words : List (List ℕ)) → AreWords words → words_in (spaced_words words) ≡ words }
    ensures one { (words : List (List ℕ)) → AreWords words
        → StandsAhead 0 (spaced_words words) (line_with words) }
    ensures printed { (first : List ℕ) (words : List (List ℕ))
        → line_with (first ∷ words) ≡ line_of first words }
{}

/// The answers of a frame over so many patches have one spelling, the one that is printed: each a patch of the mesh
/// and an epoch of 32 bits.
pub fn answers_have_one_spelling()
    ensures one { (patches : ℕ) → 1 ≤ patches → patches ≤ 10 ^ 19
        → SpellsWord (try_in patches) try_text (IsTry patches) }
    ensures all { (patches : ℕ) → 1 ≤ patches → patches ≤ 10 ^ 19
        → Spells (tries_in patches) tries_words (AreTries patches) }
{}

/// The head of a journal has one spelling: the number of its tier, of 32 bits, and how many entries it has, a number
/// of 64 bits.
pub fn a_journals_head_has_one_spelling()
    ensures { Spells head_in head_words IsHead }
{}

/// A fault of a file has one spelling: its number and its arguments, each of its type.
pub fn a_fault_has_one_spelling()
    ensures { Spells fault_in file_fault_words FitsFault }
{}

/// An entry of a journal over so many patches has one spelling, and no turn that a journal doesn't keep has one.
pub fn an_entry_has_one_spelling()
    ensures { (patches : ℕ) → 1 ≤ patches → patches ≤ 10 ^ 19
        → Spells (entry_in patches) turn_words (IsEntry patches) }
{}

/// What a fetch of the lowest tier gave has one spelling as a turn line, and no other turn has one.
pub fn an_outcome_has_one_spelling()
    ensures { (patches : ℕ) → 1 ≤ patches → patches ≤ 10 ^ 19
        → Spells (outcome_in patches) outcome_words (IsTierOutcome patches) }
{}
