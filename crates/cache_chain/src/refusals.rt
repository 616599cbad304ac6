//! Why a chain doesn't start.

ghost use Rattle.std.specs.Prelude.{◌≡◌};
ghost use Rattle.cache_chain.specs.declared.refusals.StartRefusal.TheVariants.{Memory};
ghost use Rattle.cache_chain.specs.Refusals.{refused_load};

use body_loads::LoadRefusal;
use file_model::FileFault;
use grid_vertex::NoMemory;

/// Why a chain doesn't start.
#[derive(Clone, Copy, Debug, PartialEq, Eq)]
pub enum StartRefusal {
    /// The bodies of the base patches have more bytes together than the first tier's budget.
    Budget { need: u64, given: u64 },
    /// The store failed.
    ReadFault,
    /// The bytes of the patch break the body rule: the patch, and the first fault.
    Changed(u32, FileFault),
    /// There was no memory.
    Memory,
}

impl From<LoadRefusal> for StartRefusal {
    ghost from_gives = { λ load refusal. refusal ≡ refused_load load };

    fn from(refusal: LoadRefusal) -> StartRefusal {
        match refusal {
            LoadRefusal::Changed(patch, fault) => StartRefusal::Changed(patch, fault),
            LoadRefusal::ReadFault => StartRefusal::ReadFault,
            LoadRefusal::Memory => StartRefusal::Memory,
        }
    }
}

impl From<NoMemory> for StartRefusal {
    ghost from_gives = { λ _ refusal. refusal ≡ Memory };

    fn from(_error: NoMemory) -> StartRefusal {
        StartRefusal::Memory
    }
}
