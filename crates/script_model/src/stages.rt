//! How far a session has come.

/// How far a session has come.
#[derive(Clone, Copy, Debug, PartialEq, Eq)]
pub enum SessionStage {
    /// It isn't open.
    Closed,
    /// It is open and has had no view since.
    Opened,
    /// It is open and has a view.
    Viewed,
}
