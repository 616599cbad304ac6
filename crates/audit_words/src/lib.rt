//! Reading the lines of a text with free parts: the answers of frames, the heads and entries of journals, and the
//! outcomes of fetches. `audit_spelling` defines how each is spelt.
#![tactic(auto)]

mod answers;
mod entries;
mod faults;
mod heads;
mod outcomes;
mod words;

pub use answers::read_tries;
pub use audit_spelling::{Head, TierTurn};
pub use entries::read_entry;
pub use heads::read_head;
pub use outcomes::read_outcome;

#[cfg(test)]
mod tests;
