//! One table of words that many threads change.
//!
//! The word of a patch is its epoch times 2^32 and the number of its uses. Sessions and the owner
//! of the top tier have seats at the table, and each call changes a word in one atomic step.
//! The rule says what the words and what the seats know have to do with one another between any
//! two steps.
#![tactic(auto)]

mod closing;
mod keeper_words;
mod knowledge;
mod making;
mod members;
mod naming;
mod plays;
mod seats;
mod shared_words;
mod tables;
mod word_rule;

pub use keeper_words::KeeperWords;
pub use knowledge::{Desk, Ended, Own, View};
pub use making::Made;
pub use members::{Member, TierSeat};
pub use naming::Naming;
pub use seats::{KeeperSeat, SessionSeat};
pub use shared_words::SharedWords;
pub use tables::TokenTable;

#[cfg(test)]
mod tests;
