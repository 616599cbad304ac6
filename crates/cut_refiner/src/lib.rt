//! A round of refinement: which patches are tried, and the cut that the answers give.
//!
//! `docs/MODEL.md` tells what a round is. Its definition goes through the order of all nodes; here a
//! heap holds the nodes that may be tried, and each node knows how many of its patches come from
//! outside the cut.
//!
//! What the calls cost:
//!
//! - `begin` goes once over the nodes and the patches: it scores each node and takes all memory.
//! - `ask`, `gave_back` and an answer after which the same node goes on take a constant time.
//! - An answer that ends the tries of a node takes candidates from the heap, each in the logarithm of
//!   their number, and for each goes over the patches on its two sides, up to the first whose frame is
//!   within the limit. Where the node joins, it first goes over the patches that lead from the node.
//! - The answer that leads to `Done` also lists the cut and its frame, and so goes once over the nodes
//!   and the patches; where no node is tried at all, `begin` does.
#![tactic(auto)]

mod candidates;
mod cut_lists;
mod growing_cuts;
mod hands;
mod locks;
mod refinement_states;
mod refiners;
mod round_rules;

pub use refiners::Refiner;
pub use round_model::Ask;

#[cfg(test)]
mod tests;
