//! What the lines of a script do, keep and print.

ghost use Rattle.std.specs.Prelude.{◌≡◌, ℕ, List, Some, slice_get};
ghost use Rattle.file_model.specs.Lists.{BodyLists, SeenBody};
ghost use Rattle.script_model.specs.declared.orders.Line.{Line};
ghost use Rattle.script_model.specs.declared.orders.Order.{Order};
ghost use Rattle.tier_model.specs.declared.turns.Turn.{Turn};
ghost use Rattle.tier_model.specs.Tiers.{TierState};
ghost use Rattle.tier_model.specs.Turns.{IsTurn};
ghost use Rattle.tier_model.specs.Chains.{told_at};
ghost use Rattle.run_model.specs.Worlds.{World, IsWorld, HoldsBase};
ghost use Rattle.run_model.specs.States.{State, board_of, moved, opening};
ghost use Rattle.run_model.specs.Turning.{TurnsTo};
ghost use Rattle.run_model.specs.Events.{Happens, Reaches};
ghost use Rattle.run_model.specs.Safe.{IsSafe};
ghost use Rattle.run_model.specs.Lines.{Did, Does, Runs};
ghost use Rattle.run_laws.specs.AnswerLaws.{IsAnswer};
ghost use Rattle.run_model.specs.RunTexts.{StoreOutcome, IsOpening, IsRunText};
ghost use Rattle.run_laws.specs.PrintedFrames.{IsTold, IfFrame, IsPrinted, PrintsAlong};
ghost use Rattle.run_model.specs.Kept.{TakeWishes, IsKept};

/// What a line does is a list of events, and so is what lines do one after another.
pub fn lines_are_events()
    ensures line { (w : World) (a b : State) (order : Order) (did : Did) → Does w a order did b
        → Reaches w a b }
    ensures run { (w : World) (a b : State) (orders : List Order) (dids : List Did)
        → Runs w a orders dids b → Reaches w a b }
{}

/// Every run stays in safe states, from its opening on.
pub fn runs_stay_safe()
    ensures line { (w : World) (a b : State) (order : Order) (did : Did) → IsWorld w → IsSafe w a
        → Does w a order did b → IsSafe w b }
    ensures run { (w : World) (a b : State) (orders : List Order) (dids : List Did) → IsWorld w
        → HoldsBase w → IsOpening w a → Runs w a orders dids b → IsSafe w b }
{}

/// Each frame that is printed is the greedy refinement over the answers of its session's own tries: in the state in
/// which its line begins, the session's steps end a whole round of its view, and the frame is of that round. Its cut
/// has each node's parents, and its triangles the base's boundary.
pub fn each_frame_shows_a_whole_round()
    ensures line { (w : World) (bodies : List BodyLists) (a b : State) (order : Order) (did : Did)
        → IsTold w bodies → IsWorld w → IsSafe w a → Does w a order did b
        → IfFrame did (IsPrinted w bodies a) }
    ensures run { (w : World) (bodies : List BodyLists) (a b : State) (orders : List Order)
        (dids : List Did) → IsTold w bodies → IsWorld w → IsSafe w a
        → (runs : Runs w a orders dids b) → PrintsAlong w bodies a b orders dids runs }
{}

/// A turn of a tier whose answer says what lies outside the tier is a turn in the state.
pub fn a_turn_does_what_it_promises()
    ensures { (w : World) (a b : State) (k : ℕ) (before : TierState) (answer : Turn)
        (after : TierState) → slice_get a.chain.tiers k ≡ Some before
        → IsTurn (board_of w a) (told_at a.chain k) before answer after
        → IsAnswer w a k answer after → b ≡ moved a k answer after → TurnsTo w k a answer b }
{}

/// What is posted are the views of the open sessions, and a tier that has taken the board's wishes keeps them: so
/// it is at the opening and after each line, and each event keeps the second.
pub fn lines_keep_what_is_posted()
    ensures first { (w : World) (body : ℕ → SeenBody) → IsKept w (opening w body) }
    ensures line { (w : World) (a b : State) (order : Order) (did : Did) → IsWorld w → IsSafe w a
        → Does w a order did b → IsKept w a → IsKept w b }
    ensures event { (w : World) (a b : State) → IsSafe w a → Happens w a b → TakeWishes w a
        → TakeWishes w b }
{}

/// Where the file's bodies are told, the lines of a script and what the store gave have one text at most, from
/// the opening on.
pub fn a_run_has_one_text()
    ensures { (w : World) (bodies : List BodyLists) → w.bodies ≡ Some bodies → IsWorld w
        → (lines : List Line) (outcomes : List StoreOutcome) (first second : List ℕ)
        → IsRunText w lines outcomes first → IsRunText w lines outcomes second → first ≡ second }
{}
