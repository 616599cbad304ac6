//! Why a run stops.

ghost use Rattle.std.specs.Prelude.{◌≡◌};
ghost use Rattle.view_machine.specs.declared.refusals.RunRefusal.TheVariants.{Memory, WriteFault};

use grid_vertex::NoMemory;

/// Why a run stops.
#[derive(Clone, Copy, Debug, PartialEq, Eq)]
pub enum RunRefusal {
    /// The sink failed.
    WriteFault,
    /// There was no memory.
    Memory,
}

impl From<NoMemory> for RunRefusal {
    ghost from_gives = { λ _ refusal. refusal ≡ Memory };

    fn from(_error: NoMemory) -> RunRefusal {
        RunRefusal::Memory
    }
}

impl From<view_outside::WriteFault> for RunRefusal {
    ghost from_gives = { λ _ refusal. refusal ≡ WriteFault };

    fn from(_error: view_outside::WriteFault) -> RunRefusal {
        RunRefusal::WriteFault
    }
}
