//! The laws of a settling in a run and of the frame behind it, and what a bench run over the strip comes to.
//!
//! Code is only the laws' names, on functions that do nothing. The definitions and the lemmas that lead to the
//! laws stand in `specs/`: `Settlings` says when a settling brings what a view wants, and `BenchRuns` what `bench`
//! does and prints.
#![tactic(auto)]

ghost use Rattle.std.specs.Prelude.{◌≡◌, ℕ, ◌*◌, ◌<◌, ◌≤◌, Bool, true, List, [], ◌∷◌, None, Some};
ghost use Rattle.std.specs.List.{AllByRecursion};
ghost use Rattle.file_model.specs.Lists.{BodyLists};
ghost use Rattle.mesh_model.specs.Meshes.{MeshLists, IsMesh};
ghost use Rattle.round_model.specs.Views.{ViewSeen};
ghost use Rattle.round_laws.specs.Cuts.{IsRootOrWanted};
ghost use Rattle.script_model.specs.declared.orders.Order.{Order};
ghost use Rattle.session_model.specs.Sessions.{SessionState};
ghost use Rattle.session_model.specs.SessionStates.{IsSessionState, unprinted_round};
ghost use Rattle.session_model.specs.DoneRounds.{HasDone};
ghost use Rattle.session_model.specs.Finishes.{Finishes};
ghost use Rattle.strip_laws.specs.declared.limits.TheConstants.{MOST_COLUMNS};
ghost use Rattle.text_model.specs.BenchText.{BenchCounts, bench_text};
ghost use Rattle.token_words.specs.Sessions.{session_count};
ghost use Rattle.tier_model.specs.declared.turns.Turn.{Turn};
ghost use Rattle.round_laws.specs.Wanted.{FitsWanted};
ghost use Rattle.detail_laws.specs.Wanted.{AreAnsweredBy};
ghost use Rattle.run_model.specs.Worlds.{World, IsWorld, HoldsBase};
ghost use Rattle.run_model.specs.States.{State};
ghost use Rattle.run_laws.specs.Sound.{IsSound};
ghost use Rattle.run_model.specs.Lines.{Did, DidOpen, DidView, SettlesTo, Runs};
ghost use Rattle.run_model.specs.RunTexts.{turn_outcomes, turns_in, store_outcomes, IsOpening};
ghost use Rattle.run_laws.specs.PrintedFrames.{IsTold};
ghost use Rattle.bench_laws.specs.Settlings.{NeverFails};
ghost use Rattle.bench_laws.specs.Faultless.{AreFaultless};
ghost use Rattle.bench_laws.specs.DetailAlong.{DetailAlong};
ghost use Rattle.bench_laws.specs.SettlingRuns.{HasSettled};
ghost use Rattle.bench_laws.specs.StripViews.{bench_rules};
ghost use Rattle.bench_laws.specs.BenchRuns.{first_orders, bench_counts, IsBenchWorld, IsReadyToBench, IsBenchRun, ComesTo, AreBenchCounts, IsBenchText};

/// A session that had no round, or a printed one, finishes a round whose tries are answered by the epochs that
/// its steps were told.
pub fn a_finished_round_is_answered_by_epochs()
    ensures { (mesh : MeshLists) → IsMesh mesh → (epochs : ℕ → ℕ) (s : SessionState)
        → IsSessionState mesh s → unprinted_round s ≡ None → (view : ViewSeen)
        → s.view ≡ Some view → (tries : List (ℕ × ℕ)) (t : SessionState)
        → Finishes mesh true epochs s tries t → (done : HasDone t)
        → AreAnsweredBy epochs done.round.tries }
{}

/// A settling in a run is a settling of its chain over the posted views. It goes well where the store never fails:
/// no fetch faults, and a patch is kept only where a session uses it.
pub fn a_settling_in_a_run_is_one_of_its_chain()
    ensures { (w : World) (used : ℕ → ℕ → Bool) (tiers : ℕ) (a b : State) (log : List (ℕ × Turn))
        → IsSound w a
        → ((p : ℕ) → 1 ≤ session_count (λ i. a.users i p) → used 0 p ≡ true)
        → SettlesTo w tiers a log b → NeverFails (turn_outcomes w log)
        → HasSettled w used tiers a b log }
{}

/// A run in whose turns no fetch faulted is one over a store that never failed.
pub fn a_run_without_faults_has_a_store_that_never_fails()
    ensures { (w : World) (dids : List Did)
        → AllByRecursion (λ (did : Did). AreFaultless (turns_in did)) dids
        → NeverFails (store_outcomes w dids) }
{}

/// Along a run from its opening on: where the tiers have room for all that is wished, passed over or in use, behind a
/// settling over a store that never fails, the next line's frame, of a session with a view that fits, has a cut of
/// exactly the root and the nodes, other than root and sinks, that the view wants.
pub fn a_frame_behind_a_settling_shows_what_is_wanted()
    ensures { (w : World) (bodies : List BodyLists) → IsTold w bodies → IsWorld w → HoldsBase w
        → (first last : State) (lines : List Order) (dids : List Did) → IsOpening w first
        → (runs : Runs w first lines dids last) → DetailAlong w bodies first last lines dids runs }
{}

/// The view of a bench run wants every node of the strip but the sink, and each frame is within its limit.
pub fn view_of_a_bench_run_wants_all()
    ensures wanted { (columns : ℕ) → 2 ≤ columns → columns ≤ MOST_COLUMNS → (levels : List ℕ)
        → (v : ℕ)
        → v < 2 * columns → IsRootOrWanted (bench_rules columns levels) v }
    ensures no_others { (columns : ℕ) → 2 ≤ columns → columns ≤ MOST_COLUMNS → (levels : List ℕ)
        (v : ℕ) → IsRootOrWanted (bench_rules columns levels) v → v < 2 * columns }
    ensures fits { (columns : ℕ) → 2 ≤ columns → columns ≤ MOST_COLUMNS → (levels : List ℕ)
        → FitsWanted (bench_rules columns levels) }
{}

/// Behind its first two lines a bench run is ready to settle: the tier has room for all patches, nothing is aside,
/// epochs are low, and session 1's view can be shown.
pub fn a_bench_run_is_ready_to_settle()
    ensures { (columns : ℕ) → 2 ≤ columns → columns ≤ MOST_COLUMNS → (w : World)
        (first viewed : State) → IsBenchWorld columns w → IsOpening w first
        → Runs w first (first_orders columns) (DidOpen 1 ∷ (DidView 1 ∷ [])) viewed
        → IsReadyToBench columns w viewed }
{}

/// Every bench run over c columns settles in 9c - 2 turns, and its frame has all nodes but the sink in its cut,
/// and c + 1 patches with 6c - 2 triangles and 2c + 2 open edges.
pub fn a_bench_run_comes_to_the_finest_frame()
    ensures { (columns : ℕ) → 2 ≤ columns → columns ≤ MOST_COLUMNS → (w : World) (dids : List Did)
        → IsBenchRun columns w dids → ComesTo columns dids }
{}

/// What a bench run counts and prints is a function of the number of columns.
pub fn a_bench_run_has_one_summary()
    ensures counts { (columns : ℕ) → 2 ≤ columns → columns ≤ MOST_COLUMNS → (counts : BenchCounts)
        → AreBenchCounts columns counts → counts ≡ bench_counts columns }
    ensures text { (columns : ℕ) → 2 ≤ columns → columns ≤ MOST_COLUMNS → (text : List ℕ)
        → IsBenchText columns text → text ≡ bench_text (bench_counts columns) }
{}
