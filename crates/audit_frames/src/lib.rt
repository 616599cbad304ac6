//! The answers of a session's frames, read from a text: they make whole rounds, and no epoch falls.
//!
//! Code is only the laws' names, on functions that do nothing. The definitions and the lemmas that lead to the laws
//! stand in `specs/`.
#![tactic(auto)]

ghost use Rattle.std.specs.Prelude.{◌≡◌, ◌↔◌, ℕ, ◌^◌, ◌≤◌, true, List, ◌++◌, None};
ghost use Rattle.file_model.specs.declared.fields.Try.{Try};
ghost use Rattle.round_model.specs.Order.{Rules};
ghost use Rattle.token_words.specs.Tries.{Rise};
ghost use Rattle.session_model.specs.DoneRounds.{AreWhole};
ghost use Rattle.session_model.specs.Finishes.{pairs_of};
ghost use Rattle.text_model.specs.FrameText.{Frame, frame_text};
ghost use Rattle.audit_lines.specs.Places.{StandsAhead};
ghost use Rattle.audit_lines.specs.Readers.{Reads};
ghost use Rattle.audit_spelling.specs.Words.{spaced_words};
ghost use Rattle.audit_spelling.specs.Spellings.{tries_words, AreTries};
ghost use Rattle.audit_frames.specs.Answers.{Answers, FrameSeen, is_whole, first_fall, AreAnswers, answers_frame, read_frame, IsReadFrame, IsPrintable};

/// The test of a whole round tells exactly whether answers make one.
pub fn the_test_of_a_whole_round_tells_it()
    ensures { (rules : Rules) (tries : List Try) → (is_whole rules tries ≡ true) ↔ AreWhole rules tries }
{}

/// Behind answers that rise none falls exactly where all of them rise.
pub fn none_falls_where_all_rise()
    ensures { (earlier tries : List Try) → Rise (pairs_of earlier)
        → (first_fall earlier tries ≡ None) ↔ Rise (pairs_of (earlier ++ tries)) }
{}

/// The third line of a frame's text has its answers.
pub fn a_frames_third_line_has_its_answers()
    ensures { (open_edges : ℕ) (frame : Frame) → IsPrintable open_edges frame → (patches : ℕ)
        → 1 ≤ patches → patches ≤ 10 ^ 19 → AreTries patches frame.tries
        → StandsAhead 2 (spaced_words (tries_words frame.tries)) (frame_text open_edges frame) }
{}

/// Behind answers that rise a frame is read exactly where its answers make a whole round and rise with them.
pub fn a_frame_is_read_by_its_answers()
    ensures { (f : FrameSeen) → 1 ≤ f.patches → f.patches ≤ 10 ^ 19 → Rise (pairs_of f.earlier)
        → ((line : ℕ) (answers : Answers) → AreAnswers f.patches f.rules f.earlier line answers
        → IsPrintable f.open_edges (answers_frame f answers))
        → Reads (read_frame f) (IsReadFrame f) }
{}
