//! Words of patches: how often a patch came into and left the top tier, and who uses it.
//!
//! Each patch has a word with an epoch and a number of uses. The epoch counts the patch's
//! admissions to the top tier and its evictions from it, so an odd epoch means that the patch is
//! there. The uses are pins, locks and refused tries that were not withdrawn yet. Sessions use the
//! words by `Tokens`, the owner of the top tier by `Keeper`.
#![tactic(auto)]

mod answers;
mod entries;
mod keeping;
mod locking;
mod plain_words;
mod session_sets;

pub use answers::{Evict, Seen};
pub use entries::Word;
pub use keeping::{Keeper, LAST_EPOCH, NoWords};
pub use locking::Tokens;
pub use plain_words::{PlainPass, PlainTokens};
pub use session_sets::SESSIONS;
