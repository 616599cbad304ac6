//! Why a script could not be read.

ghost use Rattle.std.specs.Prelude.{◌≡◌};
ghost use Rattle.view_script.specs.declared.refusals.ScriptRefusal.TheVariants.{Script, Memory};
ghost use Rattle.view_script.specs.Readings.{of_reading};

use line_reader::LineRefusal;
use std::alloc::{AllocError, AllocFailed};
use text_model::ScriptFault;

/// Why there is no script.
#[derive(Clone, Copy, Debug, PartialEq, Eq)]
pub enum ScriptRefusal {
    /// What was read is no script; its first fault.
    Script(ScriptFault),
    /// The source failed.
    ReadFault,
    /// There was no memory.
    Memory,
}

impl From<ScriptFault> for ScriptRefusal {
    ghost from_gives = { λ fault refusal. refusal ≡ Script fault };

    fn from(fault: ScriptFault) -> ScriptRefusal {
        ScriptRefusal::Script(fault)
    }
}

impl From<AllocError> for ScriptRefusal {
    ghost from_gives = { λ _ refusal. refusal ≡ Memory };

    fn from(_error: AllocError) -> ScriptRefusal {
        ScriptRefusal::Memory
    }
}

impl<T: Drop> From<AllocFailed<T>> for ScriptRefusal {
    ghost from_gives = { λ _ refusal. refusal ≡ Memory };

    fn from(_error: AllocFailed<T>) -> ScriptRefusal {
        ScriptRefusal::Memory
    }
}

impl From<LineRefusal> for ScriptRefusal {
    ghost from_gives = { λ reading refusal. refusal ≡ of_reading reading };

    fn from(refusal: LineRefusal) -> ScriptRefusal {
        match refusal {
            LineRefusal::ReadFault => ScriptRefusal::ReadFault,
            LineRefusal::Memory => ScriptRefusal::Memory,
        }
    }
}
