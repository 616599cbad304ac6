//! The parts of a chain, and what callers see of its turns.

use accepted_mesh::Mesh;
use arrayvec::ArrayVec;
use std::alloc::Global;
use tier_budget::{Tier, Turn};
use view_outside::Store;

/// What a chain is made of.
#[derive(Drop)]
pub struct ChainParts<'a, S: Store> {
    pub mesh: &'a Mesh,
    /// From 1 to 4 tiers, the top first.
    pub tiers: ArrayVec<Tier, 4, Global>,
    pub store: &'a mut S,
    /// The number of the mesh's file in the store.
    pub file: u32,
}

/// A turn of the tier of this number.
#[derive(Clone, Copy, Debug, PartialEq, Eq)]
pub struct TurnLine {
    pub tier: u32,
    pub turn: Turn,
}
