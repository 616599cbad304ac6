//! The laws of the strip, a mesh of any number of columns: it is a patch file in both versions, its mesh
//! is accepted, and so many nodes, patches, triangles and bytes it has.
//!
//! Code is only the most columns and the laws' names, on functions that do nothing. `specs/Strip` defines
//! the strip; the lemmas that lead to the laws stand beside it, where the crate that makes strips cites
//! them. No law asks that the number of columns is even.
#![tactic(auto)]

ghost use Rattle.std.specs.Prelude.{◌≡◌, ℕ, ◌+◌, ◌*◌, ◌≤◌, Bool, length, IsTrue};
ghost use Rattle.file_model.specs.Lists.{bodies_size};
ghost use Rattle.file_model.specs.Spelling.{file_text};
ghost use Rattle.file_model.specs.Rules.{is_version, IsPatchFile};
ghost use Rattle.mesh_model.specs.Nets.{AreOpen, HasOpenPairs};
ghost use Rattle.mesh_model.specs.Frames.{triangles_in_all, frame_patches, root_alone, IsCut};
ghost use Rattle.mesh_model.specs.Accepted.{IsAccepted};
ghost use Rattle.mesh_laws.specs.Frames.{frame_of_set};
ghost use Rattle.strip_laws.specs.Strip.{strip_nodes, strip_patches, fields_of, strip_file};
ghost use Rattle.strip_laws.specs.StripFrames.{all_inner};
ghost use Rattle.strip_laws.specs.Borders.{pairs_of};
ghost use Rattle.strip_laws.specs.StripBorder.{strip_border};
ghost use Rattle.strip_laws.specs.declared.limits.TheConstants.{MOST_COLUMNS};

mod limits;

pub use limits::MOST_COLUMNS;

/// The strip is a patch file in both versions.
pub fn strip_is_a_patch_file()
    ensures { (version columns : ℕ) → IsTrue (is_version version) → 2 ≤ columns
        → columns ≤ MOST_COLUMNS
        → IsPatchFile (strip_file version columns) (file_text (strip_file version columns)) }
{}

/// The mesh of the strip is accepted, and its root is node 0.
pub fn strip_has_an_accepted_mesh()
    ensures { (version columns : ℕ) → 1 ≤ columns → IsAccepted (strip_file version columns) 0 }
{}

/// The strip of c columns has 2c + 1 nodes and 4c - 1 patches with 12c - 6 triangles.
pub fn strip_has_so_many_parts()
    ensures nodes { (columns : ℕ) → 1 ≤ columns → length (strip_nodes columns) ≡ 2 * columns + 1 }
    ensures patches { (columns : ℕ) → 1 ≤ columns
        → length (strip_patches columns) + 1 ≡ 4 * columns }
    ensures triangles { (columns : ℕ) → 1 ≤ columns
        → triangles_in_all (fields_of (strip_patches columns)) + 6 ≡ 12 * columns }
{}

/// In version 1 the bodies of c columns have 300c - 120 bytes and the file has 388c - 96; in version 2 they
/// have 234c - 90, and it has 322c - 66.
pub fn strip_has_so_many_bytes()
    ensures bodies_1 { (columns : ℕ) → 1 ≤ columns
        → bodies_size 1 (fields_of (strip_patches columns)) + 120 ≡ 300 * columns }
    ensures bodies_2 { (columns : ℕ) → 1 ≤ columns
        → bodies_size 2 (fields_of (strip_patches columns)) + 90 ≡ 234 * columns }
    ensures file_1 { (columns : ℕ) → 2 ≤ columns → columns ≤ MOST_COLUMNS
        → length (file_text (strip_file 1 columns)) + 96 ≡ 388 * columns }
    ensures file_2 { (columns : ℕ) → 2 ≤ columns → columns ≤ MOST_COLUMNS
        → length (file_text (strip_file 2 columns)) + 66 ≡ 322 * columns }
{}

/// The base of the strip of c columns has c patches with 2c triangles.
pub fn base_of_the_strip()
    ensures patches { (columns : ℕ) → 1 ≤ columns
        → length (frame_patches (root_alone 0) (fields_of (strip_patches columns))) ≡ columns }
    ensures triangles { (version columns : ℕ) → 1 ≤ columns
        → length (frame_of_set (strip_file version columns) (root_alone 0)) ≡ 2 * columns }
{}

/// All nodes but the sink are a cut, and its frame has c + 1 patches with 6c - 2 triangles.
pub fn finest_frame_of_the_strip()
    ensures cut { (columns : ℕ) → 1 ≤ columns
        → IsCut (fields_of (strip_patches columns)) 0 (all_inner columns) }
    ensures patches { (columns : ℕ) → 2 ≤ columns
        → length (frame_patches (all_inner columns) (fields_of (strip_patches columns)))
        ≡ columns + 1 }
    ensures triangles { (version columns : ℕ) → 2 ≤ columns
        → length (frame_of_set (strip_file version columns) (all_inner columns)) + 2
        ≡ 6 * columns }
{}

/// The open edges of every frame of the strip are its border, 2c + 2 edges of c columns.
pub fn every_frame_has_the_border()
    ensures edges { (version columns : ℕ) (in_set : ℕ → Bool) → IsTrue (is_version version)
        → 2 ≤ columns → columns ≤ MOST_COLUMNS
        → IsCut (fields_of (strip_patches columns)) 0 in_set
        → AreOpen (frame_of_set (strip_file version columns) in_set)
        (pairs_of (strip_border columns)) }
    ensures number { (version columns : ℕ) (in_set : ℕ → Bool) → IsTrue (is_version version)
        → 2 ≤ columns → columns ≤ MOST_COLUMNS
        → IsCut (fields_of (strip_patches columns)) 0 in_set
        → HasOpenPairs (frame_of_set (strip_file version columns) in_set) (2 * columns + 2) }
{}
