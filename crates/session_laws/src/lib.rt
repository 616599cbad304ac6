//! The laws of sessions: what each step does to locks and uses, that steps come to an end, and that what is locked
//! has an odd epoch.
//!
//! Code is only the laws' names, on functions that do nothing. The lemmas that lead to them stand in `specs/`.
#![tactic(auto)]

ghost use Rattle.std.specs.Prelude.{◌≡◌, ◌⊎◌, ℕ, ◌<◌, Bool, true, false, List, [], ◌++◌, length, Some, None};
ghost use Rattle.file_model.specs.declared.fields.Try.{Try};
ghost use Rattle.file_model.specs.Tries.{is_odd};
ghost use Rattle.mesh_model.specs.Meshes.{MeshLists, IsMesh};
ghost use Rattle.round_model.specs.declared.asks.Ask.TheVariants.{Lock, GiveBack};
ghost use Rattle.round_model.specs.Views.{ViewSeen, view_rules};
ghost use Rattle.round_model.specs.Refiners.{Refining, pending_ask, after_answer, after_release, cut_patches};
ghost use Rattle.round_laws.specs.Among.{is_among};
ghost use Rattle.token_words.specs.Changes.{SetAt, Stays};
ghost use Rattle.session_model.specs.declared.steps.Stepped.TheVariants.{Done};
ghost use Rattle.session_model.specs.Locks.{was_tried, round_locks};
ghost use Rattle.session_model.specs.GoingRounds.{IsRefining};
ghost use Rattle.session_laws.specs.FrameLocks.{is_base, IsLockedFrame};
ghost use Rattle.session_model.specs.Sessions.{SessionState, locks, uses, opened, round_ended, with_view, printed_once};
ghost use Rattle.session_model.specs.Steps.{step, IsOfEpochs, step_by, free_step};
ghost use Rattle.session_model.specs.SessionStates.{IsSessionState, unprinted_round};
ghost use Rattle.session_model.specs.Does.{Does, steps_left};
ghost use Rattle.session_model.specs.Freeing.{DoesFree, Frees, FreesAll};
ghost use Rattle.session_laws.specs.NextStates.{IsNext};
ghost use Rattle.session_model.specs.DoneRounds.{HasDone, AreWhole};
ghost use Rattle.session_model.specs.Finishes.{Steps, Finishes, pairs_of, FinishesBy, FinishesAs};
ghost use Rattle.session_model.specs.Told.{session_told};

/// A round never asks for a patch that it has tried.
pub fn no_patch_is_tried_twice_in_a_round()
    ensures { (r : Refining) → IsRefining r → (p : ℕ) → pending_ask r ≡ Lock p
        → was_tried r.tries p ≡ false }
{}

/// An answer changes the lock of the patch that was tried and no other: it is locked exactly where the epoch is
/// odd. What is to be given back is locked, and giving it back changes no other lock.
pub fn each_answer_changes_one_lock()
    ensures tried { (r : Refining) → IsRefining r → (p : ℕ) → pending_ask r ≡ Lock p → (epoch : ℕ)
        → SetAt (round_locks r) p (is_odd epoch) (round_locks (after_answer r p epoch)) }
    ensures held { (r : Refining) → IsRefining r → (p : ℕ) → pending_ask r ≡ GiveBack p
        → round_locks r p ≡ true }
    ensures given { (r : Refining) → IsRefining r → (p : ℕ) → pending_ask r ≡ GiveBack p
        → SetAt (round_locks r) p false (round_locks (after_release r)) }
{}

/// Each patch of the frame that a round has reached is a base patch, or the round has it locked.
pub fn patches_of_a_frame_are_locked()
    ensures round { (r : Refining) → IsRefining r → (p : ℕ) → is_among (cut_patches r) p ≡ true
        → (is_base r p ≡ true) ⊎ (round_locks r p ≡ true) }
    ensures session { (mesh : MeshLists) → IsMesh mesh → (s : SessionState) → IsSessionState mesh s
        → (view : ViewSeen) → s.view ≡ Some view → (epoch : ℕ) → (step mesh s epoch).did ≡ Done
        → IsLockedFrame (step mesh s epoch).state }
{}

/// Each step changes the locks and the uses as its answer says, and keeps the session one over the mesh.
pub fn each_step_does_what_it_says()
    ensures does { (mesh : MeshLists) → IsMesh mesh → (s : SessionState) → IsSessionState mesh s
        → (epoch : ℕ) → Does s (step mesh s epoch).did (step mesh s epoch).state }
    ensures keeps { (mesh : MeshLists) → IsMesh mesh → (s : SessionState) → IsSessionState mesh s
        → (epoch : ℕ) → IsSessionState mesh (step mesh s epoch).state }
    ensures freed { (mesh : MeshLists) → IsMesh mesh → (s : SessionState) → IsSessionState mesh s
        → DoesFree s (free_step s).did (free_step s).state }
    ensures keeps_freed { (mesh : MeshLists) → IsMesh mesh → (s : SessionState)
        → IsSessionState mesh s → IsSessionState mesh (free_step s).state }
{}

/// Where a view is set on, a round ends or a frame is printed, no lock and no try in flight changes.
pub fn other_changes_keep_the_locks()
    ensures opened { (mesh : MeshLists) → IsSessionState mesh (opened (length mesh.index.fields)) }
    ensures unlocked { (patches p : ℕ) → uses (opened patches) p ≡ false }
    ensures viewed { (mesh : MeshLists) (s : SessionState) (view : ViewSeen) → IsSessionState mesh s
        → Stays (locks s) (locks (with_view view s)) }
    ensures printed { (s : SessionState) → Stays (locks s) (locks (printed_once s)) }
    ensures ended { (mesh : MeshLists) (s : SessionState) → IsSessionState mesh s
        → Stays (locks s) (locks (round_ended s)) }
{}

/// Each step but one that is done leaves less to do, so steps come to an end; each free step ends a use, unless
/// there is none.
pub fn steps_come_to_an_end()
    ensures steps { (mesh : MeshLists) → IsMesh mesh → (s : SessionState) → IsSessionState mesh s
        → (epoch : ℕ)
        → ((step mesh s epoch).did ≡ Done) ⊎ (steps_left (step mesh s epoch).state < steps_left s) }
    ensures done { (mesh : MeshLists) (s : SessionState) → IsSessionState mesh s → (view : ViewSeen)
        → s.view ≡ Some view → (epoch : ℕ) → (step mesh s epoch).did ≡ Done
        → HasDone (step mesh s epoch).state }
    ensures freed { (mesh : MeshLists) → IsMesh mesh → (s : SessionState) → IsSessionState mesh s
        → Frees s (free_step s).did (free_step s).state }
{}

/// Where a session had no round, or a printed one, the tries of the round that it finishes are those that it
/// made.
pub fn a_finished_round_has_the_tries_that_were_made()
    ensures { (mesh : MeshLists) → IsMesh mesh → (told : Bool) (epochs : ℕ → ℕ) (s : SessionState)
        → IsSessionState mesh s → unprinted_round s ≡ None → (view : ViewSeen) → s.view ≡ Some view
        → (tries : List (ℕ × ℕ)) (t : SessionState) → Finishes mesh told epochs s tries t
        → (has : HasDone t) × (pairs_of has.round.tries ≡ tries) }
{}

/// The tries of a round that is done are those of a whole round of the session's view.
pub fn a_done_round_is_whole()
    ensures { (mesh : MeshLists) (t : SessionState) → IsSessionState mesh t → (view : ViewSeen)
        → t.view ≡ Some view → (has : HasDone t)
        → AreWhole (view_rules view mesh) has.round.tries }
{}

/// A session finishes its round, whatever epochs answer its tries; where no round goes on, the tries of any whole
/// round of its view are tries that it makes.
pub fn a_session_finishes_by_any_answers()
    ensures given { (mesh : MeshLists) (epochs : ℕ → ℕ) → IsMesh mesh → (given : List ℕ)
        (s : SessionState) → IsSessionState mesh s → FinishesBy mesh epochs given s }
    ensures whole { (mesh : MeshLists) → IsMesh mesh → (epochs : ℕ → ℕ) (s : SessionState)
        → IsSessionState mesh s → unprinted_round s ≡ None → (view : ViewSeen) → s.view ≡ Some view
        → (tries : List Try) → AreWhole (view_rules view mesh) tries
        → FinishesAs mesh epochs s tries }
{}

/// Steps change neither a session's view nor how many frames it printed.
pub fn steps_keep_the_view_and_the_frames()
    ensures steps { (mesh : MeshLists) (told : Bool) (epochs : ℕ → ℕ) (s : SessionState)
        (tries : List (ℕ × ℕ)) (t : SessionState) → Steps mesh told epochs s tries t
        → session_told t ≡ session_told s }
    ensures finishes { (mesh : MeshLists) (told : Bool) (epochs : ℕ → ℕ) (s : SessionState)
        (tries : List (ℕ × ℕ)) (t : SessionState) → Finishes mesh told epochs s tries t
        → session_told t ≡ session_told s }
    ensures freed { (s t : SessionState) (unlocks : ℕ) → FreesAll s unlocks t
        → session_told t ≡ session_told s }
{}

/// A session that has given back all that it used has no use and no round.
pub fn a_freed_session_has_no_use()
    ensures uses { (s t : SessionState) (unlocks : ℕ) → FreesAll s unlocks t → (p : ℕ)
        → uses t p ≡ false }
    ensures round { (s t : SessionState) (unlocks : ℕ) → FreesAll s unlocks t → t.round ≡ None }
{}

/// What a session has locked after an event it had locked, or the patch has an odd epoch.
pub fn what_is_locked_has_an_odd_epoch()
    ensures stepped { (mesh : MeshLists) → IsMesh mesh → (epochs : ℕ → ℕ) (s : SessionState)
        → IsSessionState mesh s → (epoch : ℕ) → IsOfEpochs epochs (step mesh s epoch).did
        → IsNext mesh epochs s (step mesh s epoch).state }
    ensures by_epochs { (mesh : MeshLists) (epochs : ℕ → ℕ) (epoch : ℕ) (s : SessionState)
        → IsOfEpochs epochs (step mesh s epoch).did → step mesh s epoch ≡ step_by mesh epochs s }
    ensures freed { (mesh : MeshLists) → IsMesh mesh → (epochs : ℕ → ℕ) (s : SessionState)
        → IsSessionState mesh s → IsNext mesh epochs s (free_step s).state }
    ensures viewed { (mesh : MeshLists) (epochs : ℕ → ℕ) (s : SessionState) (view : ViewSeen)
        → IsSessionState mesh s → IsNext mesh epochs s (with_view view s) }
    ensures printed { (mesh : MeshLists) (epochs : ℕ → ℕ) (s : SessionState) → IsSessionState mesh s
        → IsNext mesh epochs s (printed_once s) }
{}
