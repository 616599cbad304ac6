//! Sums of the edges of triangles, with sign: what is left of them is the border.
//!
//! An edge that two triangles pass in opposite directions cancels. `docs/MODEL.md` says what the
//! sums are for.
#![tactic(auto)]

mod chains;
mod counts;
mod differences;
mod edges;
mod gathers;
mod scans;
mod sums;

pub use chains::EdgeChain;
pub use differences::Difference;
pub use edges::BorderEdge;

#[cfg(test)]
mod tests;
