//! What lies below a tier.

ghost use Rattle.std.specs.Prelude.{◌≡◌, ℕ, ◌<◌, ◌≤◌, Bool, true, false, not, List, length, slice_index, IfOk};
ghost use Rattle.file_model.specs.declared.faults.FileFault.{FileFault};
ghost use Rattle.file_model.specs.Lists.{SeenBody};
ghost use Rattle.tier_model.specs.Tiers.{count, IsBodyFor};
ghost use Rattle.tier_model.specs.Choices.{is_missing};
ghost use Rattle.view_outside.specs.Faults.{Rose};
ghost use Rattle.transfer_step.specs.Fetches.{is_lost, IfBody, IfFault, IfChanged, TakesUpTo};

use crate::fetches::Fetch;
use grid_vertex::NoMemory;
use std::alloc::Global;
use tier_budget::Tier;

/// What lies below a tier: the next tier, or the store.
pub trait Supply {
    /// What stays as it is, as plain data.
    ghost Place: { Type 0 };

    ghost place: { Self → Place };

    /// The size of each patch's body, in bytes.
    ghost sizes: { Place → List ℕ };

    /// Whether a patch is there.
    ghost has: { Place → ℕ → Bool };

    /// Which body may be given of a patch, and which fault may be found in it.
    ghost gives: { Place → ℕ → SeenBody → Type 0 };

    ghost finds: { Place → ℕ → FileFault → Type 0 };

    /// How often the supply has failed. It never falls.
    ghost faults: { Self → ℕ };

    /// Whether the bytes taken from the supply are told, and how many they are.
    ghost tells_taken: { Bool };

    ghost taken: { Self → ℕ };

    /// Whether the patch is there.
    fn has(&self, patch: u32) -> bool
        requires { patch < length (sizes (place self.now)) }
        ensures { result ≡ has (place self.now) patch };

    /// Whether a patch that the tier misses may be there. False only where none of them is.
    fn may_serve(&self, tier: &Tier) -> bool
        ensures { result ≡ false → (p : ℕ) → p < count tier.now.state
            → is_missing tier.now.state p ≡ true → has (place self.now) p ≡ false };

    /// Fetches the body of a patch.
    fn fetch(&mut self, alloc: Global, patch: u32) -> Result<Fetch, NoMemory>
        requires { patch < length (sizes (place self.old)) }
        ensures body { IfOk result
            (λ fetch. IfBody fetch (IsBodyFor (sizes (place self.old)) patch)) }
        ensures given { IfOk result (λ fetch. IfBody fetch (gives (place self.old) patch)) }
        ensures lost { IfOk result (λ fetch. is_lost fetch ≡ not (has (place self.old) patch)) }
        ensures fault { IfOk result
            (λ fetch. IfFault fetch (Rose (faults self.old) (faults self.new))) }
        ensures changed { IfOk result (λ fetch. IfChanged fetch (finds (place self.old) patch)) }
        ensures taken { tells_taken ≡ true
            → TakesUpTo (slice_index (sizes (place self.old)) patch) result (taken self.old)
            (taken self.new) }
        ensures later { faults self.old ≤ faults self.new }
        ensures place { place self.new ≡ place self.old };
}
