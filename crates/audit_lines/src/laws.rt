//! The laws of readers: each is a public function that does nothing.
//!
//! A reader, with the relation between values and texts that belongs to it, is a trait's ghost members, since a
//! clause can't range over relations.

ghost use Rattle.std.specs.Prelude.{◌≡◌, ◌↔◌, ◌⊎◌, ℕ, ◌+◌, List, ◌++◌, ◌∷◌, Result, Ok, Err};
ghost use Rattle.audit_lines.specs.declared.faults.AuditFault.{AuditFault};
ghost use Rattle.audit_lines.specs.Places.{Place, IsBehind, met, FailsAt, StandsAhead};
ghost use Rattle.audit_lines.specs.Readers.{Reader, nothing, due, due_by_line, then_read, read_each, read_times, read_whole, Relation, IsNothing, IsDue, IsTold, IsThen, AreEach, AreTimes, Reads, Judges};

/// A reader of values of this type for each value of another one, and the texts that belong to the values.
pub trait ReadFrom<S> {
    ghost reader: { S → Reader Self };

    ghost texts: { S → Relation Self };

    ghost reads: { (s : S) → Reads (reader s) (texts s) };
}

/// A judge of lines, the line that is written for each value, and the text that a value tells, in which that line
/// stands so many lines on.
pub trait JudgedLine {
    ghost lines: { ℕ };

    ghost judge: { ℕ → List ℕ → Result Self AuditFault };

    ghost written: { Self → List ℕ };

    ghost text_of: { Self → List ℕ };

    ghost allowed: { ℕ → Self → Type 0 };

    ghost judges: { Judges judge written allowed };

    ghost stands: { (line : ℕ) (x : Self) → allowed line x → StandsAhead lines (written x) (text_of x) };
}

/// A text that is due is met exactly where it stands at the place; else the fault is that of the first line in which
/// the text ends or has another byte.
pub fn a_due_text_is_met_or_its_first_fault_is_told()
    ensures met { (text : List ℕ) (before after : Place)
        → (met text before ≡ Ok after) ↔ IsBehind text before after }
    ensures failed { (text : List ℕ) (before : Place) (fault : AuditFault)
        → met text before ≡ Err fault → FailsAt text before fault }
{}

/// A reader that reads nothing, and one of a text that is due.
pub fn a_due_text_is_read<X>()
    ensures none { (x : X) → Reads (nothing x) (IsNothing x) }
    ensures due { (text : List ℕ) (x : X) → Reads (due text x) (IsDue text x) }
{}

/// A text that a line tells is read exactly where the line's value is allowed.
pub fn a_told_text_is_read<X: JudgedLine>()
    ensures { Reads (due_by_line X.lines X.judge X.text_of) (IsTold X.lines X.allowed X.text_of) }
{}

/// Readers behind each other read texts behind each other.
pub fn readers_go_behind_each_other<S, X: ReadFrom<S>, Y: ReadFrom<X>>()
    ensures { (s : S) → Reads (then_read (X.reader s) Y.reader) (IsThen (X.texts s) Y.texts) }
{}

/// A reader for each item reads the texts of all items behind each other.
pub fn a_reader_for_each_item_reads_all<A, S: ReadFrom<(A, S)>>()
    ensures { (items : List A) (s : S)
        → Reads (read_each (λ a t. S.reader (a, t)) items s) (AreEach (λ a t. S.texts (a, t)) items s) }
{}

/// A reader so many times reads so many texts behind each other.
pub fn a_reader_goes_on<S: ReadFrom<S>>()
    ensures { (times : ℕ) (s : S) → Reads (read_times S.reader times s) (AreTimes S.texts times s) }
{}

/// A reader takes a whole text with a value exactly where the text belongs to the value.
pub fn a_whole_text_is_read<S, X: ReadFrom<S>>()
    ensures { (s : S) (text : List ℕ) (x : X)
        → (read_whole (X.reader s) text ≡ Ok x) ↔ X.texts s 1 x text }
{}
