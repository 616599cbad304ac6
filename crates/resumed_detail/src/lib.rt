//! The law of the frames that close a run of threads: from tiers at rest, where the sessions' last views are posted,
//! all tiers settle, and each frame behind that shows what its view wants.
//!
//! Code is only the law's name, on a function that does nothing. The definitions stand in `specs/SettledViews.antt`.
#![tactic(auto)]

ghost use Rattle.std.specs.Prelude.{ℕ, List};
ghost use Rattle.file_model.specs.Lists.{BodyLists};
ghost use Rattle.tier_model.specs.Tiers.{TierState};
ghost use Rattle.run_model.specs.Worlds.{World, IsWorld};
ghost use Rattle.run_model.specs.States.{State};
ghost use Rattle.run_model.specs.Lines.{Did, Runs};
ghost use Rattle.run_laws.specs.PrintedFrames.{IsTold};
ghost use Rattle.bench_laws.specs.Settlings.{KeepsBases};
ghost use Rattle.resumed_model.specs.Resting.{resting, AreResting};
ghost use Rattle.resumed_model.specs.Rejoins.{Viewer, Rejoin, settled_orders};
ghost use Rattle.resumed_detail.specs.SettledViews.{HoldsWished, SettledShow};

/// Sessions join a run of tiers at rest, all tiers settle, and each session prints a frame. Where the tiers have room
/// for all that is wished and the store gives a body at each fetch, each frame is its session's next one, and where
/// the view's wanted nodes fit its limit, the frame has a cut of exactly the root and the nodes, other than root and
/// sinks, that the view wants.
pub fn settled_frames_show_what_is_wanted()
    ensures { (w : World) (bodies : List BodyLists) → IsTold w bodies → IsWorld w
        → (tiers : List TierState) (epochs : ℕ → ℕ) (viewers : List Viewer) (first last : State)
        (dids : List Did) → AreResting w tiers epochs → KeepsBases (resting tiers epochs)
        → Rejoin w (resting tiers epochs) viewers first → HoldsWished w first
        → Runs w first (settled_orders viewers) dids last → SettledShow w bodies viewers dids }
{}
