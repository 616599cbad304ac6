//! The laws of runs: every event keeps a state safe, lines are events, a frame shows a whole round, and a run has
//! one text.
//!
//! Code is only the laws' names, on functions that do nothing. The lemmas that lead to them stand in `specs/`.
#![tactic(auto)]

mod lines;
mod states;

pub use lines::{
    a_run_has_one_text, a_turn_does_what_it_promises, each_frame_shows_a_whole_round,
    lines_are_events, lines_keep_what_is_posted, runs_stay_safe,
};
pub use states::{
    a_safe_state_keeps_its_promises, every_event_keeps_a_state_safe, reaching_keeps_a_state_safe,
    the_opening_is_safe,
};
