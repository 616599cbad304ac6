//! A heap of ids by their ranks that shows both its ends.
#![tactic(auto)]

mod end_heap;
mod pair_heap;
#[cfg(test)]
mod tests;

pub use pair_heap::PairHeap;
