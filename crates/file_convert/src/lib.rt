//! A patch file in another version: its nodes, fields, points and corners, spelled anew.
//!
//! What stays of the file is told by the laws in `laws`.
#![tactic(auto)]

ghost use Rattle.std.specs.Prelude.{◌≡◌, ℕ, List, length, map, All, Ok};
ghost use Rattle.std.specs.List.{range_with_len};
ghost use Rattle.file_model.specs.Lists.{IndexLists, FileLists, SeenBody};
ghost use Rattle.file_model.specs.Reading.{file_in};
ghost use Rattle.patch_file.specs.BodyRead.{IsBodyOf};
ghost use Rattle.body_loads.specs.Loads.{AreBodiesAt};
ghost use Rattle.file_convert.specs.Held.{held_file, HoldsBodies};
ghost use Rattle.file_convert.specs.Whole.{all_patches};

mod bodies;
mod converting;
pub mod laws;
mod loads;
mod refusals;
mod spans;

pub use converting::convert_parts;
pub use loads::load_all;
pub use refusals::ConvertRefusal;

/// Bodies that were loaded of all patches in order are what a conversion needs.
pub fn loaded_bodies_are_held()
    ensures { (index : IndexLists) (bodies : List SeenBody)
        → map (λ body. body.patch) bodies ≡ range_with_len 0 (length index.fields)
        → All (λ body. IsBodyOf index body.patch body) bodies → HoldsBodies index bodies }
{}

/// What is loaded of all patches is what the file says.
pub fn loaded_bodies_are_the_files()
    ensures { (bytes : List ℕ) (file : FileLists) (bodies : List SeenBody) → file_in bytes ≡ Ok file
        → AreBodiesAt file.index bytes (all_patches file.index) bodies
        → held_file file.index bodies ≡ file }
{}
