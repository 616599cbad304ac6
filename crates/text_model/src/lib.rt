//! What the program writes: lines, frames and statuses.
//!
//! Code is only the records; the definitions stand in `specs/`, and `docs/TEXTS.md` tells them in
//! prose.
#![tactic(auto)]

mod faults;
mod statuses;

pub use faults::ScriptFault;
pub use statuses::Status;
