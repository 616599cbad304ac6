//! What an accepted mesh is: its graph, walks and levels, nets of edges, cuts and frames, and the
//! first fault of a mesh that isn't accepted.
//!
//! Code is only the records; the definitions stand in `specs/`, and `docs/MODEL.md` tells them in
//! prose.
#![tactic(auto)]

mod refusals;
mod sides;

pub use refusals::{DagFault, Refusal};
pub use sides::NodeSide;
