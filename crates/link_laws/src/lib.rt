//! The core of a link: a file, the questions that were sent, the answers that were made, and the reader's open call.
//!
//! Whatever is lost, repeated or delayed, an answer that the reader takes is true of the file.
#![tactic(auto)]

mod laws;

pub use laws::{steps_are_events, what_is_taken_is_true};
