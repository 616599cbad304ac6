//! The laws of tiers: what each change and each turn leaves, and which patch is chosen.
//!
//! Code is only the laws' names, on functions that do nothing. The lemmas that lead to them stand in `specs/`,
//! where the crates that make tiers, turns and chains cite them.
#![tactic(auto)]

mod tiers;

pub use tiers::{
    a_change_leaves_a_tier, a_tier_begins, a_turn_follows_one_rule, a_turn_keeps_the_tie,
    a_turn_leaves_a_tier, one_patch_comes_at_a_time, settling_leaves_tiers, the_top_tier_opens,
    the_topmost_is_one,
};
