//! What can be wrong with the text of a run by several threads.

/// The first fault of a text that is none of a file, a script and budgets. Lines count from 1, and the first argument
/// is a line of the text.
#[derive(Clone, Copy, Debug, PartialEq, Eq)]
pub enum AuditFault {
    /// The text ends before the line feed of a line that is due; the line.
    Short(u64),
    /// Something follows the last line that is due; the line that it would begin.
    Long(u64),
    /// A line isn't spelt as such a line is, or a number or a patch in it is out of its range; the line.
    Spelling(u64),
    /// What is determined by the text before differs; the line.
    Differs(u64),
    /// The answers of a frame are no whole round; the line.
    Round(u64),
    /// An epoch is below an earlier one of the same patch in the same session; the line and the first such patch.
    Falls(u64, u32),
    /// The needs of a journal's entry fail; the line.
    Journal(u64),
    /// The load behind a journal's entry passes the budget; the line.
    Load(u64),
    /// A journal has 4,294,967,294 entries or more; the line.
    Count(u64),
    /// An epoch of a session is above the number of the patch's changes in the journal of tier 0; the line and the
    /// first such patch.
    Invented(u64, u32),
}
