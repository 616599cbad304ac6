//! Why bodies could not be loaded.

ghost use Rattle.std.specs.Prelude.{◌≡◌};
ghost use Rattle.body_loads.specs.declared.refusals.LoadRefusal.TheVariants.{Memory};

use file_model::FileFault;
use grid_vertex::NoMemory;
use std::alloc::{AllocError, AllocFailed};

/// Why bodies could not be loaded.
#[derive(Clone, Copy, Debug, PartialEq, Eq)]
pub enum LoadRefusal {
    /// The bytes of the patch break the body rule: the patch, and the first fault.
    Changed(u32, FileFault),
    /// The store failed.
    ReadFault,
    /// There was no memory.
    Memory,
}

impl From<AllocError> for LoadRefusal {
    ghost from_gives = { λ _ refusal. refusal ≡ Memory };

    fn from(_error: AllocError) -> LoadRefusal {
        LoadRefusal::Memory
    }
}

impl<T: Drop> From<AllocFailed<T>> for LoadRefusal {
    ghost from_gives = { λ _ refusal. refusal ≡ Memory };

    fn from(_error: AllocFailed<T>) -> LoadRefusal {
        LoadRefusal::Memory
    }
}

impl From<NoMemory> for LoadRefusal {
    ghost from_gives = { λ _ refusal. refusal ≡ Memory };

    fn from(_error: NoMemory) -> LoadRefusal {
        LoadRefusal::Memory
    }
}
