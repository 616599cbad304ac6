//! What a step of a session did.

/// What a step of a session did.
#[derive(Clone, Copy, Debug, PartialEq, Eq)]
pub enum Stepped {
    /// An old lock of the patch was given back.
    Unlocked(u32),
    /// The patch was tried, and this epoch answered.
    Tried(u32, u32),
    /// The refused try of the patch was ended.
    Withdrew(u32),
    /// The lock of a patch of a node that missed was given back.
    GaveBack(u32),
    /// Nothing: the round is done.
    Done,
}
