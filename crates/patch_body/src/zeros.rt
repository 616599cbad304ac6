//! The axes on which an offset is 0.

ghost use Rattle.std.specs.Prelude.{◌≡◌};
ghost use Rattle.patch_body.specs.Faults.{fault_of};

use file_model::FileFault;

/// On which axes some offset of a body of version 2 is 0.
#[derive(Clone, Copy)]
pub(crate) struct Zeros {
    pub(crate) x: bool,
    pub(crate) y: bool,
    pub(crate) z: bool,
}

impl Zeros {
    ghost use Rattle.patch_body.specs.Zeros.{either, loose_fault, no_axis};

    /// No axis.
    pub(crate) fn none() -> Zeros
        ensures { result ≡ no_axis }
    {
        Zeros {
            x: false,
            y: false,
            z: false,
        }
    }

    /// The axes of either.
    pub(crate) fn or(self, other: Zeros) -> Zeros
        ensures { result ≡ either self other }
    {
        Zeros {
            x: self.x || other.x,
            y: self.y || other.y,
            z: self.z || other.z,
        }
    }

    /// Refuses the body of a patch at the first axis that isn't among these.
    pub(crate) fn tight(self, patch: u32) -> Result<(), FileFault>
        ensures { fault_of result ≡ loose_fault patch self }
    {
        if !self.x {
            return Err(FileFault::Loose(patch, 0));
        }
        if !self.y {
            return Err(FileFault::Loose(patch, 1));
        }
        if !self.z {
            return Err(FileFault::Loose(patch, 2));
        }
        Ok(())
    }
}
