//! The two sides of a node.

/// Which patches of a node.
#[derive(Clone, Copy, Debug, PartialEq, Eq)]
pub enum NodeSide {
    /// Those that lead to it.
    Incoming,
    /// Those that lead from it.
    Outgoing,
}
