//! The messages between a reader and the far side of its file, in memory and as bytes.
//!
//! A message has one spelling: reading and writing undo each other. The lemmas stand in `specs/`, where the crates that
//! send and receive messages cite them.
#![tactic(auto)]

mod laws;
mod messages;
mod reading;
mod writing;

pub use laws::a_message_has_one_spelling;
pub use messages::Message;
pub use reading::decode;
pub use writing::encode;

#[cfg(test)]
mod tests;
