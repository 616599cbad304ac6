//! Levels of a run by threads: a tier with the seat of its owner and its floor behind one lock, and the board of
//! wishes behind another.
//!
//! The levels, the board and the table of one run carry its name in their types. Locks are taken in this order: a
//! level, the level below it, the board. What holds of a level whenever its lock is free stands in `level_model`.
#![tactic(auto)]

mod boards;
mod floors;
mod levels;
mod locks;
mod ranked;
mod tier_numbers;
mod turning;

pub use boards::{BoardLock, Sight};
pub use floors::{Floor, Ground, NoFloor, StillFloor};
pub use levels::{Level, LevelParts};
pub use locks::{LowLock, TopLock};
pub use tier_numbers::{FourthTier, SecondTier, ThirdTier, TierNumber, TopTier};
