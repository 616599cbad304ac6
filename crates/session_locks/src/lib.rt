//! Sessions over the words of patches: each has a view, goes through rounds of tries, and prints frames whose
//! patches it has locked.
//!
//! `docs/MODEL.md` tells a session's step. Sessions know the words by `Tokens` alone.
#![tactic(auto)]

mod locked_patches;
mod sessions;

pub use session_model::Stepped;
pub use sessions::Session;

#[cfg(test)]
mod tests;
