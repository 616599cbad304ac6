//! Loads bodies of a file that was checked before: those of a frame, each once more.
//!
//! A file that isn't told may have changed since its check; `docs/MODEL.md` says what is answered then.
#![tactic(auto)]

ghost use Rattle.std.specs.Prelude.{◌≡◌, ℕ, Bool, List, Option, Some, Ok, Err, slice_get, option_map};
ghost use Rattle.std.specs.List.{flat_map};
ghost use Rattle.file_model.specs.declared.faults.FileFault.{FileFault};
ghost use Rattle.file_model.specs.declared.fields.PatchField.{PatchField};
ghost use Rattle.file_model.specs.Lists.{FileLists, triangles_of};
ghost use Rattle.file_model.specs.Reading.{file_in};
ghost use Rattle.mesh_model.specs.Graph.{patches_where};
ghost use Rattle.mesh_model.specs.Frames.{triangles_where};
ghost use Rattle.file_model.specs.Lists.{SeenBody};
ghost use Rattle.body_loads.specs.Loads.{body_at, AreBodiesAt, lists_of};

mod loads;
mod refusals;

pub use loads::{load_bodies, load_body};
pub use refusals::LoadRefusal;

/// What is loaded of a file is what the file says, and no body of it has a fault.
pub fn loads_give_the_files_bodies()
    ensures bodies { (bytes : List ℕ) (file : FileLists) (patch : ℕ) → file_in bytes ≡ Ok file
        → body_at file.index bytes patch ≡ option_map Ok (slice_get file.bodies patch) }
    ensures no_fault { (bytes : List ℕ) (file : FileLists) (patch : ℕ) (fault : FileFault)
        → file_in bytes ≡ Ok file → body_at file.index bytes patch ≡ Some (Err fault) → ⊥ }
    ensures triangles { (bytes : List ℕ) (file : FileLists) (test : PatchField → Bool)
        (bodies : List SeenBody) → file_in bytes ≡ Ok file
        → AreBodiesAt file.index bytes (patches_where test file.index.fields) bodies
        → flat_map triangles_of (lists_of bodies)
        ≡ triangles_where test file.index.fields file.bodies }
{}
