//! What a view wants of a mesh: each node's score, and the score that a wanted node is above.
//!
//! `docs/MODEL.md` tells the score.
#![tactic(auto)]

mod scores;
mod scoring;
mod views;
mod wants;

pub use scoring::scores_of;
pub use wants::Want;

#[cfg(test)]
mod tests;
