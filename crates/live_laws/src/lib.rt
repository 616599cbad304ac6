//! The law of a driver's text.
#![tactic(auto)]

ghost use Rattle.std.specs.Prelude.{◌≡◌, List, map, Some, ℕ};
ghost use Rattle.file_model.specs.Lists.{BodyLists};
ghost use Rattle.run_model.specs.Worlds.{World, IsWorld};
ghost use Rattle.run_model.specs.RunTexts.{StoreOutcome};
ghost use Rattle.live_model.specs.LiveTexts.{IsLiveText};
ghost use Rattle.live_laws.specs.OneLive.{without_bytes};

/// Where the file's bytes are told, what its store gave decides what a driver's lines do, but for the bytes that a body
/// is held as, and what is answered to them: two runs of the same lines in which the store gave the same have one text.
pub fn a_live_run_has_one_text()
    ensures dids { (w : World) (bodies : List BodyLists) → w.bodies ≡ Some bodies → IsWorld w
        → (lines : List (List ℕ)) (outcomes : List StoreOutcome) (t u : List ℕ)
        → (first : IsLiveText w lines outcomes t) (second : IsLiveText w lines outcomes u)
        → map without_bytes first.dids ≡ map without_bytes second.dids }
    ensures text { (w : World) (bodies : List BodyLists) → w.bodies ≡ Some bodies → IsWorld w
        → (lines : List (List ℕ)) (outcomes : List StoreOutcome) (first second : List ℕ)
        → IsLiveText w lines outcomes first → IsLiveText w lines outcomes second → first ≡ second }
{}
