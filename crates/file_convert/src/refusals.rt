//! Why a file could not be converted.

ghost use Rattle.std.specs.Prelude.{◌≡◌};
ghost use Rattle.file_convert.specs.declared.refusals.ConvertRefusal.TheVariants.{Memory};

use grid_vertex::NoMemory;

/// Why a file could not be converted.
#[derive(Clone, Copy, Debug, PartialEq, Eq)]
pub enum ConvertRefusal {
    /// The points of the patch are more than 65,535 apart on an axis, so version 2 can't have them; the
    /// least such patch.
    Wide(u32),
    /// There was no memory.
    Memory,
}

impl From<NoMemory> for ConvertRefusal {
    ghost from_gives = { λ _ refusal. refusal ≡ Memory };

    fn from(_error: NoMemory) -> ConvertRefusal {
        ConvertRefusal::Memory
    }
}
