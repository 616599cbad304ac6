//! What is to be kept of a session whose text is read: its view, how many frames it printed, and how many patches it
//! has locked. That determines what each of its lines prints, but for the answers of its frames.
//!
//! Code is only the laws' names, on functions that do nothing. The definitions and the lemmas that lead to the laws
//! stand in `specs/`.
#![tactic(auto)]

ghost use Rattle.std.specs.Prelude.{◌≡◌, ℕ, Bool, List, length, Some};
ghost use Rattle.file_model.specs.declared.fields.Try.{Try};
ghost use Rattle.mesh_model.specs.Meshes.{MeshLists, IsMesh};
ghost use Rattle.round_model.specs.Views.{ViewSeen, view_rules};
ghost use Rattle.session_model.specs.Sessions.{SessionState, opened, with_view, printed_once};
ghost use Rattle.session_model.specs.SessionStates.{IsSessionState};
ghost use Rattle.session_model.specs.DoneRounds.{HasDone, AreWhole};
ghost use Rattle.session_model.specs.Freeing.{FreesAll};
ghost use Rattle.session_model.specs.Finishes.{Finishes};
ghost use Rattle.audit_frames.specs.Answers.{answered};
ghost use Rattle.audit_sessions.specs.Summaries.{Summary, fresh, summary_with_view, summary_freed, summary_printed, Stands, CanFree, CanPrint};

/// What is kept of a session goes with each of its lines.
pub fn what_is_kept_of_a_session_goes_with_its_lines()
    ensures opened { (mesh : MeshLists) → Stands mesh (opened (length mesh.index.fields)) fresh }
    ensures viewed { (mesh : MeshLists) (s : SessionState) (view : ViewSeen) (m : Summary)
        → Stands mesh s m → Stands mesh (with_view view s) (summary_with_view view m) }
    ensures printed { (mesh : MeshLists) → IsMesh mesh → (told : Bool) (epochs : ℕ → ℕ)
        (s t : SessionState) (m : Summary) (view : ViewSeen) (tries : List (ℕ × ℕ)) → Stands mesh s m
        → s.view ≡ Some view → Finishes mesh told epochs s tries t → (done : HasDone t)
        → Stands mesh (printed_once t) (summary_printed mesh view done.round.tries m) }
    ensures freed { (mesh : MeshLists) → IsMesh mesh → (s t : SessionState) (unlocks : ℕ) (m : Summary)
        → Stands mesh s m → FreesAll s unlocks t → Stands mesh t (summary_freed m) }
{}

/// A session can give back all that it uses, and gives back as many locks as are kept of it.
pub fn a_session_gives_back_its_locks()
    ensures can { (mesh : MeshLists) → IsMesh mesh → (s : SessionState) → IsSessionState mesh s → CanFree s }
    ensures locks { (mesh : MeshLists) → IsMesh mesh → (s t : SessionState) (unlocks : ℕ) (m : Summary)
        → Stands mesh s m → FreesAll s unlocks t → unlocks ≡ m.locks }
{}

/// A session finishes a round with any answers that make one whole, and its answers determine the round.
pub fn answers_determine_a_round()
    ensures can { (mesh : MeshLists) → IsMesh mesh → (epochs : ℕ → ℕ) (s : SessionState) (m : Summary)
        (view : ViewSeen) (tries : List Try) → Stands mesh s m → s.view ≡ Some view
        → AreWhole (view_rules view mesh) tries → CanPrint mesh epochs s view tries }
    ensures round { (mesh : MeshLists) (t : SessionState) → IsSessionState mesh t → (view : ViewSeen)
        → t.view ≡ Some view → (done : HasDone t)
        → done.round ≡ answered (view_rules view mesh) done.round.tries }
{}
