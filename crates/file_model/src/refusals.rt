//! Why a file could not be read or written.

ghost use Rattle.std.specs.Prelude.{◌≡◌};
ghost use Rattle.file_model.specs.declared.refusals.ReadRefusal.TheVariants.{Memory};

use crate::faults::FileFault;
use grid_vertex::NoMemory;
use std::alloc::{AllocError, AllocFailed};

/// Why a reader gave nothing.
#[derive(Clone, Copy, Debug, PartialEq, Eq)]
pub enum ReadRefusal {
    /// What was read breaks the format; the first fault.
    File(FileFault),
    /// The store failed.
    ReadFault,
    /// There was no memory.
    Memory,
}

impl From<AllocError> for ReadRefusal {
    ghost from_gives = { λ _ refusal. refusal ≡ Memory };

    fn from(_error: AllocError) -> ReadRefusal {
        ReadRefusal::Memory
    }
}

impl<T: Drop> From<AllocFailed<T>> for ReadRefusal {
    ghost from_gives = { λ _ refusal. refusal ≡ Memory };

    fn from(_error: AllocFailed<T>) -> ReadRefusal {
        ReadRefusal::Memory
    }
}

impl From<NoMemory> for ReadRefusal {
    ghost from_gives = { λ _ refusal. refusal ≡ Memory };

    fn from(_error: NoMemory) -> ReadRefusal {
        ReadRefusal::Memory
    }
}
