//! The strip of any even number of columns, as the parts of a patch file.
//!
//! `specs/Strip` of `strip_laws` defines it; its laws tell how many nodes, patches, triangles and bytes it has.
#![tactic(auto)]

mod nodes;
mod patches;
mod points;
mod strips;
#[cfg(test)]
mod tests;

pub use strip_laws::MOST_COLUMNS;
pub use strips::{strip, strip_as};
