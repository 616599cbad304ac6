//! The laws of a file in another version: its nodes, fields, points and corners stay, and so does its mesh.
//!
//! Code is only the laws' names, on functions that do nothing. The lemmas that lead to them stand in `specs/`.

ghost use Rattle.std.specs.Prelude.{◌≡◌, ◌↔◌, ◌⊎◌, ℕ, true, List, IsTrue};
ghost use Rattle.grid_vertex.specs.declared.points.Point.{Point};
ghost use Rattle.file_model.specs.Lists.{BodyLists, FileLists};
ghost use Rattle.file_model.specs.Spelling.{file_text};
ghost use Rattle.file_model.specs.Rules.{is_version, is_narrow, IsPatchFile};
ghost use Rattle.mesh_model.specs.Accepted.{IsAccepted};
ghost use Rattle.file_convert.specs.Converted.{with_version, AllFit, IsLeastWide, AllNear};

/// A file in another version has the same nodes, fields, and bodies of points and corners, and back in its
/// own it is the file again.
pub fn another_version_says_the_same()
    ensures nodes { (version : ℕ) (file : FileLists)
        → (with_version version file).index.nodes ≡ file.index.nodes }
    ensures fields { (version : ℕ) (file : FileLists)
        → (with_version version file).index.fields ≡ file.index.fields }
    ensures bodies { (version : ℕ) (file : FileLists)
        → (with_version version file).bodies ≡ file.bodies }
    ensures back { (version : ℕ) (file : FileLists)
        → with_version file.index.version (with_version version file) ≡ file }
{}

/// A patch file in another version is one exactly where its bodies fit that version; all fit version 1.
pub fn a_file_that_fits_is_a_patch_file()
    ensures fits { (version : ℕ) (file : FileLists) (bytes : List ℕ) → IsTrue (is_version version)
        → IsPatchFile file bytes → AllFit version file.bodies
        → IsPatchFile (with_version version file) (file_text (with_version version file)) }
    ensures only { (version : ℕ) (file : FileLists) (bytes : List ℕ)
        → IsPatchFile (with_version version file) bytes → AllFit version file.bodies }
    ensures first { (bodies : List BodyLists) → AllFit 1 bodies }
{}

/// A mesh is accepted in one version exactly where it is in another, with the same root.
pub fn another_version_has_the_same_mesh()
    ensures accepted { (version : ℕ) (file : FileLists) (root : ℕ) → IsAccepted file root
        → IsAccepted (with_version version file) root }
    ensures back { (version : ℕ) (file : FileLists) (root : ℕ)
        → IsAccepted (with_version version file) root → IsAccepted file root }
{}

/// Bodies fit version 2, or one of them is the least that doesn't, and never both.
pub fn bodies_fit_or_one_is_the_least_wide()
    ensures either { (bodies : List BodyLists)
        → AllFit 2 bodies ⊎ ((patch : ℕ) × IsLeastWide bodies patch) }
    ensures not_both { (bodies : List BodyLists) (patch : ℕ) → AllFit 2 bodies
        → IsLeastWide bodies patch → ⊥ }
    ensures one { (bodies : List BodyLists) (p q : ℕ) → IsLeastWide bodies p → IsLeastWide bodies q
        → p ≡ q }
{}

/// Points fit version 2 exactly where any two of them are at most 65,535 apart on each axis.
pub fn narrow_points_are_near()
    ensures { (points : List Point) → (is_narrow 2 points ≡ true) ↔ AllNear points }
{}
