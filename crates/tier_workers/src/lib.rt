//! The workers of a run by threads: each turns the tier of one level until the run is told to end.
#![tactic(auto)]

mod workers;

pub use tier_levels::{
    BoardLock, Floor, FourthTier, Ground, Level, LevelParts, LowLock, NoFloor, SecondTier, Sight,
    StillFloor, ThirdTier, TierNumber, TopLock, TopTier,
};
pub use workers::{worker_above, worker_lowest};
