//! The borders of bodies: a body's border is found and added to a chain.
//!
//! `docs/MODEL.md` says what a chain's sums are for.
#![tactic(auto)]

mod adding;
mod borders;
mod keys;
#[cfg(test)]
mod tests;

pub use adding::{add_body, add_border};
pub use borders::Border;
