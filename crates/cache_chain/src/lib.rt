//! The tiers of the cache as a chain: the first is the top, each other is below the one before it, and below
//! the lowest lies the file of a mesh in a store.
//!
//! A turn of the top tier changes the words of the patches, and no other does. `docs/MODEL.md` tells in prose
//! how a chain opens and how it settles.
#![tactic(auto)]

mod among_tiers;
mod chains;
mod opening;
mod parts;
mod refusals;
mod tier_settling;
mod tier_turns;

pub use chains::TierChain;
pub use opening::open_tiers;
pub use parts::{ChainParts, TurnLine};
pub use refusals::StartRefusal;
pub use tier_budget::{Tier, Turn};
