//! Sessions: a view, a round of tries, locks of patches, and the steps that a session takes.
//!
//! Code is only the record of a step; the definitions stand in `specs/`, and `docs/MODEL.md` tells the step in prose.
#![tactic(auto)]

mod steps;

pub use steps::Stepped;
