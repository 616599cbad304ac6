//! Spells frames and other lines of text.
//!
//! `docs/TEXTS.md` tells everything that is printed.
#![tactic(auto)]

mod bodies;
mod body_lines;
mod faults;
mod frames;
mod lines;
mod parts;
mod point_texts;
mod refused;
mod words;

pub use faults::add_file_fault;
pub use frames::{frame_text, write_front};
pub use lines::{add_line, add_part, add_parts, begin_line, end_line, line_text};
pub use parts::Part;
pub use refused::undo_if_refused;

#[cfg(test)]
mod tests;
