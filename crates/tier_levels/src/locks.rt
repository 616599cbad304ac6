//! Locks round levels, which many threads share.

use crate::levels::Level;
use crate::tier_numbers::TopTier;
use std::sync::Mutex;
use token_table::{KeeperSeat, Naming, TierSeat};

/// The lock of the top level, whose owner has the keeper's seat.
pub type TopLock<'m, N, F> = Mutex<Level<'m, N, TopTier, KeeperSeat, F>>;

/// The lock of a level below it.
pub type LowLock<'m, N, T, F> = Mutex<Level<'m, N, T, TierSeat, F>>;
