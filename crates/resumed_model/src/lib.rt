//! A run that goes on from tiers at rest: sessions join it again, each with its last view and its count of frames,
//! and what holds of every run holds from there on.
//!
//! Code is only the laws' names, on functions that do nothing. The definitions stand in `specs/`: `Resting` says
//! from which tiers a run goes on, and `Rejoins` how sessions join.
#![tactic(auto)]

ghost use Rattle.std.specs.Prelude.{◌≡◌, ℕ, false, List, ◌++◌};
ghost use Rattle.std.specs.List.{AllByRecursion};
ghost use Rattle.tier_model.specs.Tiers.{TierState};
ghost use Rattle.run_model.specs.Worlds.{World, IsWorld};
ghost use Rattle.run_model.specs.States.{State};
ghost use Rattle.resumed_model.specs.Resting.{resting, AreResting, GoesOn};
ghost use Rattle.resumed_model.specs.Rejoins.{Viewer, Rejoin, AreApart, Stands};

/// From tiers at rest, where nobody is there, a run goes on: the state is safe, and what the lines of a script keep
/// holds there.
pub fn a_run_goes_on_from_tiers_at_rest()
    ensures { (w : World) (tiers : List TierState) (epochs : ℕ → ℕ) → IsWorld w
        → AreResting w tiers epochs → GoesOn w (resting tiers epochs) }
{}

/// Where a run goes on, it goes on behind sessions that join it, also one after another. The tiers and the epochs
/// stay, no session uses a
/// patch that none used before, each session is open with its view, on the board too, with its count of frames and
/// without a round, no two are one, and the state is one.
pub fn sessions_join_a_run_that_goes_on()
    ensures goes_on { (w : World) (a b : State) (viewers : List Viewer) → IsWorld w → GoesOn w a
        → Rejoin w a viewers b → GoesOn w b }
    ensures more { (w : World) (a b c : State) (viewers others : List Viewer)
        → Rejoin w a viewers b → Rejoin w b others c → Rejoin w a (viewers ++ others) c }
    ensures chain { (w : World) (a b : State) (viewers : List Viewer) → Rejoin w a viewers b
        → b.chain ≡ a.chain }
    ensures unused { (w : World) (a b : State) (viewers : List Viewer) (p : ℕ)
        → ((i : ℕ) → a.users i p ≡ false) → Rejoin w a viewers b → (i : ℕ) → b.users i p ≡ false }
    ensures stand { (w : World) (a b : State) (viewers : List Viewer) → Rejoin w a viewers b
        → AllByRecursion (Stands w b) viewers }
    ensures apart { (w : World) (a b : State) (viewers : List Viewer) → Rejoin w a viewers b
        → AreApart viewers }
    ensures one { (w : World) (a b c : State) (viewers : List Viewer) → Rejoin w a viewers b
        → Rejoin w a viewers c → b ≡ c }
{}
