//! The sessions of a run on one thread, each at the seat of its number, over the words of patches and the board.
//!
//! The contracts speak of runs: each call does what a line of a script orders, whatever stands beside the seats.
//! `docs/MODEL.md` tells in prose what a session does.
#![tactic(auto)]

mod seat;
mod seats;

pub use seats::Seats;
pub use session_locks::Stepped;
