//! Lines of the text of a served script: its heads, and tiers' journals. A call that is refused leaves the text as it was.
//!
//! `serve_model` defines the text, and `docs/MODEL.md` tells it in prose.
#![tactic(auto)]

mod entries;
mod heads;
mod journals;

pub use entries::add_entry;
pub use heads::{add_serve_head, add_session_head, add_settled_head};
pub use journals::add_journal;

#[cfg(test)]
mod tests;
