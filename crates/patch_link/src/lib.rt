//! A file on a far side, read by questions and answers that may be lost, repeated and reordered.
#![tactic(auto)]

mod answers;
mod asking;
mod link_store;
mod questions;

pub use asking::ask;
pub use link_store::LinkStore;
