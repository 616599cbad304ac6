//! What `play`, `playw` and `live` ask for.

use arrayvec::ArrayVec;
use std::marker::Model;

mod reading;

pub use reading::{live_of, play_of};

/// The greatest budget of a tier, in bytes.
pub const GREATEST_BUDGET: u64 = 1_099_511_627_776;

/// The most tiers of a run.
pub const MOST_TIERS: usize = 4;

/// How many patches come to a tier at a time, 1 to 8, and each tier's budget in bytes, 1 to 4 of them.
#[derive(Drop)]
pub struct Play {
    width: u32,
    budgets: ArrayVec<u64, MOST_TIERS>,
}

impl Model for Play {
    ghost use Rattle.viewer_program.specs.Playing.{PlaySeen, IsPlay};

    ghost Value = { PlaySeen };

    ghost view = { λ play. record { width = play.width; budgets = play.budgets.items } };

    ghost invariant = { λ play.
        IsPlay (record { width = play.width; budgets = play.budgets.items }) };
}

impl Play {
    ghost use Rattle.std.specs.Prelude.{◌≡◌, ◌≤◌, length};
    ghost use Rattle.tier_model.specs.Tiers.{IsWidth};
    ghost use Rattle.viewer_program.specs.Playing.{IsPlay};

    /// How many patches come to a tier at a time.
    pub fn width(&self) -> u32
        ensures value { result ≡ self.now.width }
        ensures wide { IsWidth result }
    {
        self.width
    }

    /// Each tier's budget, from the top.
    pub fn budgets(&self) -> &[u64]
        ensures value { result.now ≡ self.now.budgets }
        ensures some_tier { 1 ≤ length result.now }
        ensures few_tiers { length result.now ≤ MOST_TIERS }
    {
        self.budgets.as_slice()
    }
}
