//! One turn of a tier: what comes to it from the tier below or from the store, and what leaves it.
//!
//! A `Supply` is what lies below a tier. A turn takes the wishes if they have changed, and then does the
//! first rule that applies, which `docs/MODEL.md` tells in prose.
#![tactic(auto)]

mod admitting;
mod evicting;
mod fetches;
mod fetching;
mod rules;
mod store_supply;
mod supplies;
mod tier_supply;
mod turns;

pub use fetches::Fetch;
pub use store_supply::StoreSupply;
pub use supplies::Supply;
pub use tier_budget::{Tier, Turn};
pub use tier_supply::TierSupply;
pub use turns::{ranked_turn, take_wishes, turn};

#[cfg(test)]
mod tests;
