//! Tiers of the cache: what a tier holds, which patch it takes and gives up next, and what one turn of it
//! and the settling of a chain of tiers do.
//!
//! Code is only the records; the definitions stand in `specs/`, and `docs/MODEL.md` tells them in prose.
#![tactic(auto)]

mod turns;

pub use turns::{Abort, Coming, MOST_WIDTH, Turn};
