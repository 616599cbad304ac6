//! Why driving stops.

ghost use Rattle.std.specs.Prelude.{◌≡◌};
ghost use Rattle.live_machine.specs.declared.refusals.DriveRefusal.TheVariants.{Memory, WriteFault};
ghost use Rattle.live_machine.specs.Refused.{of_reading};

use grid_vertex::NoMemory;
use line_reader::LineRefusal;

/// Why driving stops.
#[derive(Clone, Copy, Debug, PartialEq, Eq)]
pub enum DriveRefusal {
    /// The source failed.
    ReadFault,
    /// The sink failed.
    WriteFault,
    /// There was no memory.
    Memory,
}

impl From<NoMemory> for DriveRefusal {
    ghost from_gives = { λ _ refusal. refusal ≡ Memory };

    fn from(_error: NoMemory) -> DriveRefusal {
        DriveRefusal::Memory
    }
}

impl From<view_outside::WriteFault> for DriveRefusal {
    ghost from_gives = { λ _ refusal. refusal ≡ WriteFault };

    fn from(_error: view_outside::WriteFault) -> DriveRefusal {
        DriveRefusal::WriteFault
    }
}

impl From<LineRefusal> for DriveRefusal {
    ghost from_gives = { λ reading refusal. refusal ≡ of_reading reading };

    fn from(refusal: LineRefusal) -> DriveRefusal {
        match refusal {
            LineRefusal::ReadFault => DriveRefusal::ReadFault,
            LineRefusal::Memory => DriveRefusal::Memory,
        }
    }
}
