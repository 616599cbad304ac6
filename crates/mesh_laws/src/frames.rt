//! Frames: whatever cut of an accepted mesh a frame belongs to, its edges cancel but for those of the base's
//! boundary.

ghost use Rattle.std.specs.Prelude.{◌≡◌, ℕ, Bool, List, [], ◌∷◌};
ghost use Rattle.grid_vertex.specs.declared.triangles.Triangle.{Triangle};
ghost use Rattle.file_model.specs.declared.fields.PatchField.{PatchField};
ghost use Rattle.file_model.specs.Lists.{IndexLists, FileLists};
ghost use Rattle.file_model.specs.Rules.{IsIndex};
ghost use Rattle.mesh_model.specs.Graph.{roots, outgoing};
ghost use Rattle.mesh_model.specs.Nets.{Pair, AreOpen, HaveOneNet};
ghost use Rattle.mesh_model.specs.Frames.{frame_patches, root_alone, IsCut};
ghost use Rattle.mesh_model.specs.Accepted.{IsNestedGraph, IsAccepted, triangles_out_of};
ghost use Rattle.mesh_laws.specs.Frames.{frame_of_set};

/// The frame of every cut of an accepted mesh has the net of the root's triangles, at each pair of points.
/// So any two frames have one net, and one list of open edges.
pub fn frames_have_one_boundary()
    ensures of_root { (file : FileLists) (root : ℕ) (in_set : ℕ → Bool) → IsIndex file.index
        → IsAccepted file root → IsCut file.index.fields root in_set
        → HaveOneNet (frame_of_set file in_set) (triangles_out_of file root) }
    ensures of_frames { (file : FileLists) (root : ℕ) (here there : ℕ → Bool) → IsIndex file.index
        → IsAccepted file root → IsCut file.index.fields root here
        → IsCut file.index.fields root there
        → HaveOneNet (frame_of_set file here) (frame_of_set file there) }
    ensures open_edges { (file : FileLists) (root : ℕ) (here there : ℕ → Bool) (ps qs : List Pair)
        → IsIndex file.index → IsAccepted file root → IsCut file.index.fields root here
        → IsCut file.index.fields root there → AreOpen (frame_of_set file here) ps
        → AreOpen (frame_of_set file there) qs → ps ≡ qs }
{}

/// The root alone is a cut, and its frame is the patches that lead from the root, with their triangles.
pub fn base_is_the_roots_frame()
    ensures cut { (index : IndexLists) (root : ℕ) → IsIndex index → IsNestedGraph index root
        → IsCut index.fields root (root_alone root) }
    ensures patches { (nodes : ℕ) (fields : List PatchField) (root : ℕ)
        → roots nodes fields ≡ root ∷ []
        → frame_patches (root_alone root) fields ≡ outgoing fields root }
    ensures triangles { (nodes : ℕ) (file : FileLists) (root : ℕ)
        → roots nodes file.index.fields ≡ root ∷ []
        → frame_of_set file (root_alone root) ≡ triangles_out_of file root }
{}

/// The open edges of triangles are one list, and triangles of one net have the same.
pub fn open_edges_are_one_list()
    ensures of_triangles { (triangles : List Triangle) (ps qs : List Pair) → AreOpen triangles ps
        → AreOpen triangles qs → ps ≡ qs }
    ensures of_net { (first second : List Triangle) (pairs : List Pair) → HaveOneNet first second
        → AreOpen first pairs → AreOpen second pairs }
{}
