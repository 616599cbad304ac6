//! The commands that a driver has beside those of a script.

/// What the first word of a line asks for, where a script has no such word.
#[derive(Clone, Copy, Debug, PartialEq, Eq)]
pub enum LiveCommand {
    Show,
    Body,
    Turns,
}
