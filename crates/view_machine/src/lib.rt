//! The viewer on one thread: a machine that does what the lines of a script order, and prints what they did.
//!
//! `docs/MODEL.md` tells runs in prose, and `docs/TEXTS.md` the texts.
#![tactic(auto)]

mod machines;
mod playing;
mod refusals;
mod shown;
mod sizes;

pub use cache_chain::StartRefusal;
pub use machines::{EmptyRun, Machine};
pub use refusals::RunRefusal;
pub use shown::ShownFrame;
pub use sizes::FrameSize;
