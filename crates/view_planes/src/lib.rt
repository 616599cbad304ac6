//! Culling by planes: a view with up to six half-spaces, which wants no node whose ball is wholly behind one.
//!
//! `docs/MODEL.md` tells what a view wants.
#![tactic(auto)]

ghost use Rattle.std.specs.Prelude.{◌≡◌, ℕ, Bool, true, not, ◌&&◌, ◌||◌, List, slice_get};
ghost use Rattle.grid_vertex.specs.declared.balls.Ball.{Ball};
ghost use Rattle.grid_vertex.specs.Balls.{is_ball_within};
ghost use Rattle.file_model.specs.Lists.{FileLists};
ghost use Rattle.mesh_model.specs.Nets.{HaveOneNet};
ghost use Rattle.mesh_model.specs.Frames.{root_alone, IsCut};
ghost use Rattle.mesh_model.specs.Accepted.{IsAccepted, triangles_out_of};
ghost use Rattle.mesh_model.specs.Meshes.{MeshLists, IsMesh};
ghost use Rattle.round_model.specs.Rounds.{has, round_of};
ghost use Rattle.round_model.specs.Views.{view_rules};
ghost use Rattle.mesh_laws.specs.Frames.{frame_of_set};
ghost use Rattle.view_planes.specs.HalfSpaces.{HalfSpaceSeen, is_behind};
ghost use Rattle.view_planes.specs.Planes.{PlanesSeen, is_culled, is_culled_node, planes_rules};
ghost use Rattle.view_planes.specs.CulledCuts.{IsGranted};

mod half_spaces;
mod planes;

pub use half_spaces::{HalfSpace, LEVEL_REACH, NORMAL_REACH, Side};
pub use planes::Planes;

#[cfg(test)]
mod tests;

/// Where a ball is behind a half-space, so is each ball that it contains; and what a culled ball contains is
/// culled.
pub fn a_ball_behind_holds_nothing_else()
    ensures behind { (plane : HalfSpaceSeen) (outer inner : Ball)
        → is_ball_within outer inner ≡ true → is_behind plane outer ≡ true
        → is_behind plane inner ≡ true }
    ensures culled { (planes : List HalfSpaceSeen) (outer inner : Ball)
        → is_ball_within outer inner ≡ true → is_culled planes outer ≡ true
        → is_culled planes inner ≡ true }
{}

/// Whatever is answered, the set of a round with half-spaces is a cut, and its frame has the base's boundary.
pub fn a_culled_frame_has_the_boundary()
    ensures cut { (seen : PlanesSeen) (mesh : MeshLists) → IsMesh mesh → (epochs : List ℕ)
        → IsCut mesh.index.fields mesh.root (has (round_of (planes_rules seen mesh) epochs).set) }
    ensures boundary { (seen : PlanesSeen) (mesh : MeshLists) (file : FileLists) (epochs : List ℕ)
        → IsMesh mesh → IsAccepted file mesh.root → file.index ≡ mesh.index
        → HaveOneNet (frame_of_set file (has (round_of (planes_rules seen mesh) epochs).set))
        (triangles_out_of file mesh.root) }
{}

/// With the greatest limit, and each try granted, the cut with half-spaces is the root and those nodes of the
/// view's cut that are behind none of them.
pub fn culling_takes_what_is_behind()
    ensures { (seen : PlanesSeen) (mesh : MeshLists) (epochs culled_epochs : List ℕ) → IsMesh mesh
        → seen.view.limit ≡ 4294967295 → IsGranted (view_rules seen.view mesh) epochs
        → IsGranted (planes_rules seen mesh) culled_epochs → (v : ℕ)
        → has (round_of (planes_rules seen mesh) culled_epochs).set v
        ≡ (root_alone mesh.root v
        || (has (round_of (view_rules seen.view mesh) epochs).set v
        && not (is_culled_node seen.planes (slice_get mesh.index.nodes v)))) }
{}
