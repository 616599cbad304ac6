//! Small files, byte by byte, for the tests of several crates, and what is printed of them.
//!
//! `docs/FORMAT.md` has the format.
#![tactic(auto)]

mod graphs;
mod squares;
mod texts;

pub use graphs::{chain, circle, strip};
pub use squares::{halves, square, square_2, turned};
pub use texts::{SQUARE_ACCEPTED, SQUARE_BASE, SQUARE_FAN};
