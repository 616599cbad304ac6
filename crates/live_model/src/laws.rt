//! What driving promises.

ghost use Rattle.std.specs.Prelude.{List, ℕ};
ghost use Rattle.std.specs.List.{AllByRecursion, flat_map};
ghost use Rattle.file_model.specs.Lists.{BodyLists};
ghost use Rattle.run_model.specs.Worlds.{World, IsWorld, HoldsBase};
ghost use Rattle.run_model.specs.States.{State};
ghost use Rattle.run_model.specs.Events.{Reaches};
ghost use Rattle.run_model.specs.Safe.{IsSafe};
ghost use Rattle.run_model.specs.RunTexts.{IsOpening};
ghost use Rattle.run_laws.specs.PrintedFrames.{IsTold, IsPrinted};
ghost use Rattle.live_model.specs.LiveLines.{LiveDid, LiveDoes, LiveRuns, plain_dids};
ghost use Rattle.live_model.specs.LiveLaws.{IsRun, IfShown, IfGiven, ShowsAlong};

/// What the lines of a driver do, lines of a script do: a list of events.
pub fn driving_is_a_run()
    ensures run { (w : World) (a b : State) (lines : List (List ℕ)) (dids : List LiveDid)
        → LiveRuns w a lines dids b → IsRun w a (flat_map plain_dids dids) b }
    ensures events { (w : World) (a b : State) (lines : List (List ℕ)) (dids : List LiveDid)
        → LiveRuns w a lines dids b → Reaches w a b }
{}

/// A driver's lines lead from safe states to safe states, from the opening on.
pub fn driving_stays_safe()
    ensures line { (w : World) (a b : State) (line : List ℕ) (did : LiveDid) → IsWorld w → IsSafe w a
        → LiveDoes w a line did b → IsSafe w b }
    ensures run { (w : World) (a b : State) (lines : List (List ℕ)) (dids : List LiveDid)
        → IsWorld w → HoldsBase w → IsOpening w a → LiveRuns w a lines dids b → IsSafe w b }
{}

/// Each frame that is printed or shown is the greedy refinement over the answers of its session's own tries, in the
/// state in which its line begins.
pub fn driving_shows_whole_rounds()
    ensures line { (w : World) (bodies : List BodyLists) (a b : State) (line : List ℕ)
        (did : LiveDid) → IsTold w bodies → IsWorld w → IsSafe w a → LiveDoes w a line did b
        → IfShown did (IsPrinted w bodies a) }
    ensures run { (w : World) (bodies : List BodyLists) (a b : State) (lines : List (List ℕ))
        (dids : List LiveDid) → IsTold w bodies → IsWorld w → IsSafe w a
        → (runs : LiveRuns w a lines dids b) → ShowsAlong w bodies a b lines dids runs }
{}

/// Each body that is given is its file's.
pub fn bodies_are_the_files()
    ensures { (w : World) (a b : State) (lines : List (List ℕ)) (dids : List LiveDid)
        → LiveRuns w a lines dids b → AllByRecursion (IfGiven w) dids }
{}
