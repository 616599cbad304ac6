//! What lines with free parts spell.

use tier_model::Turn;

/// The head of a journal: a tier's number, and how many entries its journal has.
#[derive(Clone, Copy, Debug, PartialEq, Eq)]
pub struct Head {
    pub tier: u32,
    pub entries: u64,
}

/// A turn beside its tier's number.
#[derive(Clone, Copy, Debug, PartialEq, Eq)]
pub struct TierTurn {
    pub tier: u32,
    pub turn: Turn,
}
