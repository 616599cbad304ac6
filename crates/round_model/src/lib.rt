//! Which nodes a view wants, in which order they are tried, and what a round of tries gives.
//!
//! Code is only the records, the limits and the type of views; the definitions stand in `specs/`, and `docs/MODEL.md` tells them in
//! prose.
#![tactic(auto)]

mod asks;
mod limits;
mod views;

pub use asks::Ask;
pub use limits::{EYE_REACH, GREATEST_FOCAL, GREATEST_THRESHOLD};
pub use views::View;
