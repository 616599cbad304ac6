//! The board on which sessions post what they want of a mesh, and the wishes that follow from it.
//!
//! How much a patch is wished stands in `tier_model`; `docs/MODEL.md` tells it in prose.
#![tactic(auto)]

mod boards;
mod maxima;
mod posted_slots;
mod views;

pub use boards::WishBoard;
pub use views::ReadyView;

#[cfg(test)]
mod tests;
