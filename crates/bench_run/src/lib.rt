//! What `bench` runs: the strip as a file in memory, its mesh, and one settling and one frame over it.
#![tactic(auto)]

mod bases;
mod growing;
mod runs;
mod strips;
mod summaries;
mod sure;

pub use runs::bench;
pub use strips::{strip_mesh, strip_store};
pub use sure::SureStore;

#[cfg(test)]
mod tests;
