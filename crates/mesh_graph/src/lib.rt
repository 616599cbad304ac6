//! The graph of a patch file: the patches on each side of a node, levels, and the first fault of the
//! graph alone.
//!
//! It needs no bodies. `docs/MODEL.md` says what roots, sinks and levels are for.
#![tactic(auto)]

mod arcs;
mod blanks;
mod chains;
mod graph;
mod levels;
mod nesting;
mod roots;
mod sides;
mod verdict;

pub use graph::{MeshGraph, levels_are_unique};

#[cfg(test)]
mod tests;
