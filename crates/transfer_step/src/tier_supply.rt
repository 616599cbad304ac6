//! A tier as a supply of the one above it.

ghost use Rattle.std.specs.Prelude.{◌≡◌, false, Some, slice_get};
ghost use Rattle.tier_model.specs.Tiers.{TierState, is_held};

use crate::fetches::Fetch;
use crate::supplies::Supply;
use grid_vertex::NoMemory;
use std::alloc::Global;
use tier_budget::Tier;

/// A tier as a supply of the one above it: it has the patches that it holds.
#[derive(Drop)]
pub struct TierSupply<'a> {
    pub tier: &'a Tier,
}

impl<'a> Supply for TierSupply<'a> {
    ghost Place = { TierState };

    ghost place = { λ supply. supply.tier.now.state };

    ghost sizes = { λ s. s.sizes };

    ghost has = { is_held };

    ghost gives = { λ s p body. slice_get s.held p ≡ Some (Some body) };

    ghost finds = { λ _ _ _. ⊥ };

    ghost faults = { λ _. 0 };

    ghost tells_taken = { false };

    ghost taken = { λ _. 0 };

    fn has(&self, patch: u32) -> bool {
        self.tier.held(patch).is_some()
    }

    fn may_serve(&self, tier: &Tier) -> bool {
        tier.may_take_from(self.tier)
    }

    fn fetch(&mut self, _alloc: Global, patch: u32) -> Result<Fetch, NoMemory> {
        match self.tier.held(patch) {
            Some(body) => Ok(Fetch::Body(body.clone()?)),
            None => Ok(Fetch::Lost),
        }
    }
}
