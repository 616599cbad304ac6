//! What can be wrong with a script.

/// The first fault of a byte string that is no script. Lines count from 1.
#[derive(Clone, Copy, Debug, PartialEq, Eq)]
pub enum ScriptFault {
    /// The script has more than 1,048,576 bytes.
    TooLong,
    /// The line has a byte that is no text; the line.
    NotText(u32),
    /// The line's first word is no command; the line.
    UnknownWord(u32),
    /// The line has another number of words than its command; the line.
    WrongCount(u32),
    /// A word is no number or out of its range; the line and the first such word, from 1.
    Number(u32, u32),
    /// The session number isn't 1 to 64; the line.
    SessionOut(u32),
    /// The session is open already; the line.
    AlreadyThere(u32),
    /// The session isn't open; the line.
    NotThere(u32),
    /// The session has had no view since it was opened; the line.
    NoView(u32),
    /// There is no such tier; the line.
    NoTier(u32),
    /// The command can't stand in a script for several threads; the line.
    PlayOnly(u32),
}
