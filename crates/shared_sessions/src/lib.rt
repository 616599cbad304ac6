//! A session of a served run: its seat at the shared words, the orders that may come, and what it appends as they do.
//!
//! A session knows the words by its seat alone, whatever other threads change. Its tries pass a gate, which tests hold.
#![tactic(auto)]

mod frames;
mod gated_words;
mod lines;
mod seats;

pub use frames::write_round;
pub use gated_words::GatedWords;
pub use lines::{free_session, open_session};
pub use seats::{finish_round, free_seat};
