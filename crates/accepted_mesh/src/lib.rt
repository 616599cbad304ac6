//! What an accepted mesh says but for its bodies, for whatever goes over meshes.
//!
//! `docs/MODEL.md` says what an accepted mesh is; `dag_check` finds whether a file has one.
#![tactic(auto)]

mod meshes;

pub use meshes::Mesh;
