//! Which patch a tier takes next, and which it gives up.

ghost use Rattle.std.specs.Prelude.{◌≡◌, ℕ, ◌<◌, true, false, MatchOption};
ghost use Rattle.tier_model.specs.Tiers.{count, kept_wish, is_held};
ghost use Rattle.tier_model.specs.Ranks.{outranks};
ghost use Rattle.tier_model.specs.Choices.{Chooses, ChoosesBy, OrAnswers, is_missing, may_leave};

use super::Tier;

impl Tier {
    /// The highest of the patches that are wished, no base patches, and neither held nor coming nor put
    /// aside, and for which `fits` answers true. None exactly where there is none.
    pub fn greatest_missing<F: Fn(u32) -> bool>(&mut self, fits: F) -> Option<u32>
        requires callable { (p : ℕ) → p < count self.old.state → F.pre fits p }
        ensures choice { ChoosesBy (count self.old.state)
            (λ p answer. OrAnswers (is_missing self.old.state p) (F.post fits p) answer)
            (outranks (kept_wish self.old.state)) result }
        ensures same { self.new.state ≡ self.old.state }
        ensures spare { self.new.spare ≡ self.old.spare }
        ensures records { self.new.records ≡ self.old.records }
    {
        self.missing.greatest_where(fits)
    }

    /// Whether a patch may be missing that the tier below holds. False only where it holds none of the
    /// missing ones. It asks 64 patches at once, and so takes far less time than to ask for each.
    pub fn may_take_from(&self, below: &Tier) -> bool
        ensures { result ≡ false → (p : ℕ) → p < count self.now.state
            → is_missing self.now.state p ≡ true → is_held below.now.state p ≡ false }
    {
        self.missing.words().meets(&below.holds)
    }

    /// Whether a patch is missing.
    pub fn misses_any(&self) -> bool
        ensures { result ≡ false → (p : ℕ) → p < count self.now.state
            → is_missing self.now.state p ≡ false }
    {
        !self.missing.is_empty()
    }

    /// The lowest of the patches that are held, neither pinned nor passed over, and below the given one.
    /// None exactly where there is none.
    pub fn least_held(&self, below: u32) -> Option<u32>
        requires { below < count self.now.state }
        ensures { Chooses (count self.now.state) (may_leave self.now.state below)
            (λ p q. outranks (kept_wish self.now.state) q p) result }
    {
        let patch = self.leaving.least()?;
        if self.outranks(below, patch) {
            Some(patch)
        } else {
            None
        }
    }

    // Whether one patch ranks above another.
    fn outranks(&self, patch: u32, other: u32) -> bool
        requires patch { patch < count self.now.state }
        requires other { other < count self.now.state }
        ensures { result ≡ outranks (kept_wish self.now.state) patch other }
    {
        let wish = self.wishes[patch as usize];
        let others = self.wishes[other as usize];
        others < wish || (wish == others && patch < other)
    }
}
