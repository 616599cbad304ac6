//! What a script is for.

/// What a script is for.
#[derive(Clone, Copy, Debug, PartialEq, Eq)]
pub enum Mode {
    /// One thread that plays the lines in their order.
    Play,
    /// A thread for each session and each tier.
    Serve,
}
