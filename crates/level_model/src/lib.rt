//! The levels of a run by threads: what holds of a tier, the seat of its owner and its floor whenever the lock
//! around them is free, and the laws by which each turn keeps it.
//!
//! Code is only the laws' names, on functions that do nothing. The lemmas that lead to them stand in `specs/`.
#![tactic(auto)]

mod lists;
mod turns;

pub use lists::{
    a_chain_begins_with_levels, a_list_of_levels_is_taken_apart, levels_stay_when_sessions_end,
};
pub use turns::{
    a_level_begins, a_level_takes_wishes, a_top_level_holds_what_is_locked, a_turn_keeps_a_level,
};
