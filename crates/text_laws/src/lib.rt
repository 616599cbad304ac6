//! The laws of texts: the definitions of what the commands write leave no freedom, so that each command has
//! one text.
//!
//! Code is only the laws' names, on functions that do nothing. The lemmas that lead to them stand in
//! `specs/`.
#![tactic(auto)]

ghost use Rattle.std.specs.Prelude.{◌≡◌, ℕ, List};
ghost use Rattle.file_model.specs.Lists.{FileLists};
ghost use Rattle.mesh_model.specs.Meshes.{MeshLists, IsMesh};
ghost use Rattle.text_model.specs.FrameText.{Frame, IsFrameText};
ghost use Rattle.text_model.specs.AcceptedText.{IsAcceptedText};
ghost use Rattle.round_model.specs.Order.{Rules};
ghost use Rattle.round_model.specs.Views.{ViewSeen};
ghost use Rattle.still_texts.specs.Shown.{IsBaseText};
ghost use Rattle.view_planes.specs.HalfSpaces.{HalfSpaceSeen};
ghost use Rattle.view_planes.specs.Planes.{PlanesSeen};
ghost use Rattle.still_texts.specs.Full.{IsGranted, IsFullText, IsCullText};
ghost use Rattle.still_texts.specs.Sides.{IsSidesText};
ghost use Rattle.ray_pick.specs.Rays.{RaySeen};
ghost use Rattle.script_model.specs.declared.orders.Line.{Line};
ghost use Rattle.run_model.specs.Worlds.{World};
ghost use Rattle.run_model.specs.RunTexts.{StoreOutcome, IsRunText};
ghost use Rattle.text_laws.specs.Plays.{IsOver};
ghost use Rattle.still_texts.specs.Picks.{IsPickText};

/// The line of an accepted file is one.
pub fn an_accepted_file_has_one_line()
    ensures { (file : FileLists) (root : ℕ) (text other : List ℕ) → IsAcceptedText file root text
        → IsAcceptedText file root other → text ≡ other }
{}

/// A frame has one text.
pub fn a_frame_has_one_text()
    ensures { (frame : Frame) (text other : List ℕ) → IsFrameText frame text
        → IsFrameText frame other → text ≡ other }
{}

/// The text of the base is one.
pub fn a_base_has_one_text()
    ensures { (file : FileLists) (root : ℕ) (text other : List ℕ) → IsBaseText file root text
        → IsBaseText file root other → text ≡ other }
{}

/// The text of a view's whole round is one: one list of epochs that are all 1 makes a round whole, and an
/// accepted mesh has its levels from its nodes and patches.
pub fn a_view_has_one_text()
    ensures rounds { (rules : Rules) (epochs others : List ℕ) → IsGranted rules epochs
        → IsGranted rules others → epochs ≡ others }
    ensures meshes { (mesh other : MeshLists) → IsMesh mesh → IsMesh other
        → mesh.index ≡ other.index → mesh.root ≡ other.root → mesh ≡ other }
    ensures texts { (view : ViewSeen) (file : FileLists) (root : ℕ) (text other : List ℕ)
        → IsFullText view file root text → IsFullText view file root other → text ≡ other }
{}

/// The text of the whole round of a view with half-spaces is one.
pub fn a_culled_view_has_one_text()
    ensures { (seen : PlanesSeen) (file : FileLists) (root : ℕ) (text other : List ℕ)
        → IsCullText seen file root text → IsCullText seen file root other → text ≡ other }
{}

/// The text that tells on which side of a plane a file's nodes lie is one.
pub fn the_sides_of_a_plane_have_one_text()
    ensures { (plane : HalfSpaceSeen) (file : FileLists) (text other : List ℕ)
        → IsSidesText plane file text → IsSidesText plane file other → text ≡ other }
{}

/// The line of what a ray meets first in a view's frame is one.
pub fn a_pick_has_one_text()
    ensures { (view : ViewSeen) (ray : RaySeen) (file : FileLists) (root : ℕ) (text other : List ℕ)
        → IsPickText view ray file root text → IsPickText view ray file root other
        → text ≡ other }
{}

/// A play has one text for each list of what came of the store's fetches: the file's bytes, the budgets and the
/// width have one world, and the lines and the outcomes have one text in it. Several reads of the store make one
/// fetch, so that which reads failed says more than the outcomes do.
pub fn a_play_has_one_text()
    ensures worlds { (bytes budgets : List ℕ) (width : ℕ) (world other : World)
        → IsOver bytes budgets width world → IsOver bytes budgets width other → world ≡ other }
    ensures texts { (bytes budgets : List ℕ) (width : ℕ) (world other : World) (lines : List Line)
        (outcomes : List StoreOutcome) (first second : List ℕ) → IsOver bytes budgets width world
        → IsOver bytes budgets width other → IsRunText world lines outcomes first
        → IsRunText other lines outcomes second → first ≡ second }
{}
