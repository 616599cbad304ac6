//! Lines that are read from a source one after another, each as soon as its line feed is there.
#![tactic(auto)]

mod lines;
mod pieces;
mod refusals;

pub use lines::{LineRead, LineReader};
pub use pieces::read_piece;
pub use refusals::LineRefusal;

#[cfg(test)]
mod tests;
