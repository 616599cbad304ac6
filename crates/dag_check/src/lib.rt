//! The validator: whether an index and its bodies are an accepted mesh, else the first fault.
//!
//! `docs/MODEL.md` says what an accepted mesh is.
#![tactic(auto)]

mod adding;
mod all_node_sums;
mod borders;
mod checkers;
mod checks;
mod inner;
mod node_sums;
mod refusals;

pub use accepted_mesh::Mesh;
pub use checkers::Checker;
pub use checks::check;
pub use mesh_model::{DagFault, Refusal};
pub use refusals::CheckRefusal;

#[cfg(test)]
mod tests;
