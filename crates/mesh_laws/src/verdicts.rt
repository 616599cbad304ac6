//! Verdicts: a file is accepted with one root, or has one first fault, and never both.

ghost use Rattle.std.specs.Prelude.{◌≡◌, ℕ};
ghost use Rattle.file_model.specs.Lists.{FileLists};
ghost use Rattle.mesh_model.specs.declared.refusals.DagFault.{DagFault};
ghost use Rattle.mesh_model.specs.Accepted.{IsAccepted, IsMeshFault};

/// An accepted mesh has one root and no fault, and a mesh has one first fault at most.
pub fn a_file_has_one_verdict()
    ensures one_root { (file : FileLists) (root other : ℕ) → IsAccepted file root
        → IsAccepted file other → root ≡ other }
    ensures not_both { (file : FileLists) (root : ℕ) (fault : DagFault) → IsAccepted file root
        → IsMeshFault file fault → ⊥ }
    ensures one_fault { (file : FileLists) (fault other : DagFault) → IsMeshFault file fault
        → IsMeshFault file other → fault ≡ other }
{}
