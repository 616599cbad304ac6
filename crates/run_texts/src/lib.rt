//! The lines that a run prints: those of sessions, of turns and of tiers.
//!
//! `docs/TEXTS.md` has the texts.
#![tactic(auto)]

mod sessions;
mod tiers;
mod turns;

pub use sessions::{add_closed, add_freed, add_open, add_step, add_view};
pub use tiers::add_tier;
pub use turns::add_turn;

#[cfg(test)]
mod tests;
