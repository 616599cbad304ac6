//! What a driver orders line by line, what each line does in the state that it finds, and what is answered.
//!
//! A driver's lines are those of a script that is played and three more. Code is only the orders, the limits and
//! the laws' names, on functions that do nothing. The definitions stand in `specs/`, and `docs/TEXTS.md` tells them
//! in prose.
#![tactic(auto)]

mod commands;
mod laws;
mod limits;
mod orders;

pub use commands::LiveCommand;
pub use laws::{
    bodies_are_the_files, driving_is_a_run, driving_shows_whole_rounds, driving_stays_safe,
};
pub use limits::{MOST_LINE, MOST_LINES};
pub use orders::LiveOrder;
