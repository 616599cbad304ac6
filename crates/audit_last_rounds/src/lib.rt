//! The round that a session finishes where epochs answer its tries, as a function of the session and the epochs.
//!
//! Code is only the law's name, on a function that does nothing. The definitions and the lemmas that lead to the law
//! stand in `specs/`.
#![tactic(auto)]

ghost use Rattle.std.specs.Prelude.{◌≡◌, ℕ, true, List, Some, None};
ghost use Rattle.mesh_model.specs.Meshes.{MeshLists, IsMesh};
ghost use Rattle.round_model.specs.Views.{ViewSeen};
ghost use Rattle.session_model.specs.Sessions.{SessionState};
ghost use Rattle.session_model.specs.SessionStates.{IsSessionState, unprinted_round};
ghost use Rattle.session_model.specs.Finishes.{Finishes};
ghost use Rattle.audit_last_rounds.specs.LastRounds.{round_made};
ghost use Rattle.audit_last_rounds.specs.LastRoundLaws.{IsMade};

/// A session finishes a round whose tries the epochs answer; where no round goes on and it has a view, that is the only
/// one.
pub fn epochs_determine_a_round()
    ensures finishes { (mesh : MeshLists) → IsMesh mesh → (epochs : ℕ → ℕ) (s : SessionState)
        → IsSessionState mesh s
        → Finishes mesh true epochs s (round_made mesh epochs s).tries (round_made mesh epochs s).last }
    ensures one { (mesh : MeshLists) → IsMesh mesh → (epochs : ℕ → ℕ) (s : SessionState)
        → IsSessionState mesh s → unprinted_round s ≡ None → (view : ViewSeen) → s.view ≡ Some view
        → (tries : List (ℕ × ℕ)) (t : SessionState) → Finishes mesh true epochs s tries t
        → IsMade mesh epochs s tries t }
{}
