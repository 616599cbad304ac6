//! The laws of the text of a served run: each frame of a session shows a whole round of its view, and so does each
//! frame behind the settling; no journal takes its tier past its budget; and the orders of a session do one thing by
//! one list of tries.
//!
//! Code is only the laws' names, on functions that do nothing. The lemmas that lead to them stand in `specs/`.
#![tactic(auto)]

ghost use Rattle.std.specs.Prelude.{◌≡◌, ℕ, List, Option, Some, None, take};
ghost use Rattle.file_model.specs.Lists.{BodyLists};
ghost use Rattle.mesh_model.specs.Meshes.{IsMesh};
ghost use Rattle.script_model.specs.declared.orders.Line.{Line};
ghost use Rattle.script_model.specs.declared.orders.Order.{Order};
ghost use Rattle.session_model.specs.Sessions.{SessionState};
ghost use Rattle.tier_model.specs.declared.turns.Turn.{Turn};
ghost use Rattle.tier_model.specs.Tiers.{sizes_of};
ghost use Rattle.run_model.specs.Worlds.{World, IsWorld, HoldsBase};
ghost use Rattle.run_model.specs.Lines.{Did};
ghost use Rattle.run_laws.specs.PrintedFrames.{IsTold, IfFrame, PrintsAlong};
ghost use Rattle.serve_model.specs.ServedLines.{Serves, ServesAll, all_tries};
ghost use Rattle.serve_model.specs.Journals.{pins_of, ReplaysAt};
ghost use Rattle.serve_model.specs.ServeTexts.{last_orders, IsServeText};
ghost use Rattle.serve_laws.specs.ServedSeats.{IsSeat};
ghost use Rattle.serve_laws.specs.ServedRounds.{IsShown, ShowsAlong};
ghost use Rattle.serve_laws.specs.OneServed.{AllDoOne};
ghost use Rattle.serve_laws.specs.JournalLoads.{IsWithin};

/// Each frame that a served session prints is the greedy refinement over the answers of its own tries: it is of a
/// whole round of the view that the session has there, its cut has each node's parents, and its triangles have the
/// base's boundary.
pub fn each_served_frame_shows_a_whole_round()
    ensures order { (w : World) (bodies : List BodyLists) (a b : Option SessionState) (order : Order)
        (did : Did) → IsTold w bodies → IsMesh w.mesh → IsSeat w.mesh a → Serves w a order did b
        → IfFrame did (IsShown w bodies a) }
    ensures orders { (w : World) (bodies : List BodyLists) (b : Option SessionState)
        (orders : List Order) (dids : List Did) → IsTold w bodies → IsMesh w.mesh
        → (serves : ServesAll w None orders dids b) → ShowsAlong w bodies None b orders dids serves }
{}

/// So does each frame behind the settling, over the epochs that the tiers settled to.
pub fn each_settled_frame_shows_a_whole_round()
    ensures { (w : World) (bodies : List BodyLists) (lines : List Line) (text : List ℕ)
        → IsTold w bodies → IsWorld w → (is : IsServeText w lines text)
        → PrintsAlong w bodies is.left is.last (last_orders is.sessions) is.dids is.runs }
{}

/// At every entry of its journal a tier's load is at most its budget.
pub fn no_journal_passes_its_budget()
    ensures { (w : World) (k : ℕ) (journal : List Turn) → HoldsBase w
        → (is : ReplaysAt w k journal) → (n : ℕ)
        → IsWithin is.budget w.width (sizes_of w.mesh.index) (pins_of w k) (take n journal) }
{}

/// Where the file's bodies are told, the orders of a session and its tries leave no choice: they do one thing, and
/// leave the session in one state.
pub fn a_served_session_does_one_thing()
    ensures { (w : World) (bodies : List BodyLists) → w.bodies ≡ Some bodies
        → (a b c : Option SessionState) (orders : List Order) (dids others : List Did)
        → ServesAll w a orders dids b → ServesAll w a orders others c
        → all_tries dids ≡ all_tries others → AllDoOne dids others b c }
{}
