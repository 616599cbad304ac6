//! What a patch file is: its records, its one spelling, its rules, and reading it with the first fault.
//!
//! Code is only the records and the test of an epoch; the definitions stand in `specs/`, and `docs/FORMAT.md` tells them in
//! prose.
#![tactic(auto)]

mod faults;
mod fields;
mod limits;
mod refusals;

pub use faults::FileFault;
pub use fields::{Node, PatchField, Try, is_granted};
pub use limits::{MOST_IN_PATCH, MOST_NODES, MOST_PATCHES};
pub use refusals::ReadRefusal;
