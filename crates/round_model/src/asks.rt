//! What a round asks for.

/// What a round asks for next.
#[derive(Clone, Copy, Debug, PartialEq, Eq)]
pub enum Ask {
    /// A try to lock the patch.
    Lock(u32),
    /// The lock of a patch of a node that missed is to be given back.
    GiveBack(u32),
    /// Nothing: the node order is through.
    Done,
}
