//! The texts that are made of a file that was checked: its accepted line, on which side of a plane its nodes
//! lie, its frames, whose bodies are read again, and what a ray meets first in one.
//!
//! `docs/TEXTS.md` has the texts.
#![tactic(auto)]

mod accepted;
mod bases;
mod fulls;
mod picks;
mod rounds;
mod sides;

pub use accepted::accepted_text;
pub use bases::base_text;
pub use fulls::{cull_text, full_text};
pub use picks::pick_text;
pub use sides::sides_text;
