//! The laws of meshes: which boundary a frame has, and which verdict a file.
//!
//! Code is only the laws' names, on functions that do nothing. The lemmas that lead to them stand in `specs/`,
//! where the crates that check files, refine cuts and print frames cite them.
#![tactic(auto)]

mod frames;
mod verdicts;

pub use frames::{base_is_the_roots_frame, frames_have_one_boundary, open_edges_are_one_list};
pub use verdicts::a_file_has_one_verdict;
