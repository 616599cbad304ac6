//! The commands of a script.

/// What the first word of a line asks for.
#[derive(Clone, Copy, Debug, PartialEq, Eq)]
pub enum Command {
    Open,
    View,
    Step,
    Frame,
    Free,
    Close,
    Turn,
    Settle,
    Status,
}
