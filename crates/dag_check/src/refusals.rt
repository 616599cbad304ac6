//! Why a check gave no mesh.

ghost use Rattle.std.specs.Prelude.{◌≡◌};
ghost use Rattle.mesh_model.specs.declared.refusals.Refusal.TheVariants.{Dag};
ghost use Rattle.dag_check.specs.declared.refusals.CheckRefusal.TheVariants.{Refused, Memory};
ghost use Rattle.dag_check.specs.Refusals.{check_refusal};

use file_model::ReadRefusal;
use grid_vertex::NoMemory;
use mesh_model::{DagFault, Refusal};

/// Why a check gave no mesh.
#[derive(Clone, Copy, Debug, PartialEq, Eq)]
pub enum CheckRefusal {
    /// The file is no accepted mesh; its first fault.
    Refused(Refusal),
    /// The store failed.
    ReadFault,
    /// There was no memory.
    Memory,
}

impl From<ReadRefusal> for CheckRefusal {
    ghost from_gives = { λ refused refusal. refusal ≡ check_refusal refused };

    fn from(refused: ReadRefusal) -> CheckRefusal {
        match refused {
            ReadRefusal::File(fault) => CheckRefusal::Refused(Refusal::File(fault)),
            ReadRefusal::ReadFault => CheckRefusal::ReadFault,
            ReadRefusal::Memory => CheckRefusal::Memory,
        }
    }
}

impl From<DagFault> for CheckRefusal {
    ghost from_gives = { λ fault refusal. refusal ≡ Refused (Dag fault) };

    fn from(fault: DagFault) -> CheckRefusal {
        CheckRefusal::Refused(Refusal::Dag(fault))
    }
}

impl From<NoMemory> for CheckRefusal {
    ghost from_gives = { λ _ refusal. refusal ≡ Memory };

    fn from(_error: NoMemory) -> CheckRefusal {
        CheckRefusal::Memory
    }
}
