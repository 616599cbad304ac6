//! The body of a patch: points and triangles that are kept as the bytes of a patch file and read from
//! them in constant time.
#![tactic(auto)]

mod bodies;
mod checking;
mod places;
mod spelling;
#[cfg(test)]
mod tests;
mod zeros;

pub use bodies::Body;
