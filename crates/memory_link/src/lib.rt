//! A link in memory to a far side that is a store: it loses and repeats messages as it is told.
#![tactic(auto)]

mod answering;
mod counts;
mod far_finds;
mod held;
mod memory_link;

pub use answering::Answerer;
pub use counts::a_count_is_the_rest;
pub use far_finds::find_far;
pub use memory_link::MemoryLink;

#[cfg(test)]
mod tests;
