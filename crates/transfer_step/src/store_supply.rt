//! A file in a store as a supply of the lowest tier.

ghost use Rattle.std.specs.Prelude.{true};
ghost use Rattle.view_outside.specs.Files.{HasFile};
ghost use Rattle.tier_model.specs.Tiers.{sizes_of};
ghost use Rattle.transfer_step.specs.Supplies.{StorePlace, GivesFile, FindsInFile, HasFile-prop};

use crate::fetches::Fetch;
use crate::supplies::Supply;
use file_model::ReadRefusal;
use grid_vertex::NoMemory;
use patch_file::{Index, read_body};
use std::alloc::Global;
use std::sync::Arc;
use tier_budget::Tier;
use view_outside::Store;

/// A file in a store as a supply of the lowest tier: it has every patch of the file's index.
#[derive(Drop)]
pub struct StoreSupply<'i, 's, S: Store> {
    pub index: &'i Index,
    pub store: &'s mut S,
    pub file: u32,
    ghost is_there: { HasFile (S.files store.now) file } by { HasFile-prop (S.files store.now)
        file },
}

impl<'i, 's, S: Store> Supply for StoreSupply<'i, 's, S> {
    ghost Place = { StorePlace };

    ghost place = { λ supply.
        record {
          index = supply.index.now;
          file = supply.file;
          files = S.files supply.store.now;
          lender = supply.store.ghost_name;
        } };

    ghost sizes = { λ a. sizes_of a.index };

    ghost has = { λ _ _. true };

    ghost gives = { GivesFile };

    ghost finds = { FindsInFile };

    ghost faults = { λ supply. S.faults supply.store.now };

    ghost tells_taken = { true };

    ghost taken = { λ supply. S.taken supply.store.now };

    fn has(&self, _patch: u32) -> bool {
        true
    }

    fn may_serve(&self, tier: &Tier) -> bool {
        tier.misses_any()
    }

    fn fetch(&mut self, alloc: Global, patch: u32) -> Result<Fetch, NoMemory> {
        match read_body(alloc, self.index, self.store, self.file, patch) {
            Ok(body) => Ok(Fetch::Body(Arc::new(alloc, body)?)),
            Err(ReadRefusal::File(fault)) => Ok(Fetch::Changed(fault)),
            Err(ReadRefusal::ReadFault) => Ok(Fetch::Fault),
            Err(ReadRefusal::Memory) => Err(NoMemory),
        }
    }
}
