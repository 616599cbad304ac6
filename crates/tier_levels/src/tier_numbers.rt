//! Which tier of its run a level has.

/// Names a tier by its number, 0 the top one's, for contracts alone: no call reads it.
pub trait TierNumber {
    ghost use Rattle.std.specs.Prelude.{ℕ};

    ghost tier: { ℕ };
}

/// The top tier.
pub struct TopTier;

impl TierNumber for TopTier {
    ghost tier = { 0 };
}

/// The tier below the top.
pub struct SecondTier;

impl TierNumber for SecondTier {
    ghost tier = { 1 };
}

/// The tier below the second.
pub struct ThirdTier;

impl TierNumber for ThirdTier {
    ghost tier = { 2 };
}

/// The tier below the third, the last that there may be.
pub struct FourthTier;

impl TierNumber for FourthTier {
    ghost tier = { 3 };
}
