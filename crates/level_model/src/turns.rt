//! The laws of one level.

ghost use Rattle.std.specs.Prelude.{◌≡◌, ℕ, ◌<◌, ◌⊎◌, Bool, true, false, List, [], Option, Some, Result, length, slice_get, slice_index};
ghost use Rattle.std.specs.Bool.{MatchBool};
ghost use Rattle.file_model.specs.Lists.{IndexLists, SeenBody};
ghost use Rattle.file_model.specs.Tries.{is_odd};
ghost use Rattle.view_outside.specs.Files.{file_bytes};
ghost use Rattle.mesh_model.specs.Graph.{outgoing};
ghost use Rattle.mesh_model.specs.Meshes.{MeshLists, IsMesh};
ghost use Rattle.token_table.specs.declared.knowledge.Desk.{Desk};
ghost use Rattle.token_table.specs.Known.{IsDesk};
ghost use Rattle.token_table.specs.Makings.{ArePins};
ghost use Rattle.token_table.specs.Setups.{Setup};
ghost use Rattle.token_table.specs.WordRule.{opened};
ghost use Rattle.tier_model.specs.declared.turns.Turn.{Turn};
ghost use Rattle.tier_model.specs.Places.{is_marked};
ghost use Rattle.tier_model.specs.Tiers.{TierState, is_held, base_marks};
ghost use Rattle.tier_model.specs.Turns.{Board, begun};
ghost use Rattle.tier_model.specs.Chains.{opened_top};
ghost use Rattle.transfer_step.specs.TurnWords.{told_of};
ghost use Rattle.cache_chain.specs.ChainStates.{IsFileBody, FindsChanged, HasBodies};
ghost use Rattle.cache_chain.specs.Opening.{IsOpened};
ghost use Rattle.cache_chain.specs.WordTurns.{TurnsStore, NeverFails};
ghost use Rattle.level_model.specs.Levels.{RunSeen, SeatSeen, FloorSeen, IsFileOf, IsTopSeat, IsLowerSeat, IsLevel, IsSeated};
ghost use Rattle.level_model.specs.LevelTurns.{TurnsRanked, TurnsSeat, KeepsFloor};
ghost use Rattle.level_model.specs.FirstLevels.{IsFirstFloor, IsFirstTier};

use grid_vertex::NoMemory;

/// A level that takes the board's wishes stays one.
pub fn a_level_takes_wishes()
    ensures { (board : Board) (run : RunSeen) (k : ℕ) (mesh : IndexLists) (s : TierState)
        (seat : SeatSeen) (floor : FloorSeen) → IsLevel run k mesh s seat floor
        → IsLevel run k mesh (begun board s) seat floor }
{}

/// A turn over the wishes that a tier keeps leaves a level, over the store as over another tier whose bodies are
/// the file's, and its seat in its place. So whatever order the turns of a run come in, the load stays within the
/// budget, the journal replays, each body is its file's, and at the top the tier holds what the words say.
pub fn a_turn_keeps_a_level()
    ensures over_store { (run : RunSeen) (k : ℕ) (mesh : IndexLists) (result : Result Turn NoMemory)
        (s t : TierState) (seat later : SeatSeen) (floor after : FloorSeen)
        → floor.has_store ≡ true → floor.is_still ≡ false
        → TurnsRanked (told_of (λ _. true) seat.has_words (slice_index seat.desk.epochs))
        (IsFileBody mesh (file_bytes floor.files floor.file)) result s t
        → TurnsSeat result t seat later → KeepsFloor floor after
        → TurnsStore (FindsChanged mesh (file_bytes floor.files floor.file)) s result
        floor.faults after.faults floor.taken after.taken
        → IsLevel run k mesh s seat floor → IsLevel run k mesh t later after }
    ensures over_tier { (run : RunSeen) (k : ℕ) (mesh : IndexLists) (below : TierState)
        (result : Result Turn NoMemory) (s t : TierState) (seat later : SeatSeen)
        (floor after : FloorSeen) → floor.has_store ≡ false → floor.is_still ≡ false
        → TurnsRanked (told_of (is_held below) seat.has_words (slice_index seat.desk.epochs))
        (λ p body. slice_get below.held p ≡ Some (Some body)) result s t
        → TurnsSeat result t seat later → KeepsFloor floor after → NeverFails result
        → HasBodies (IsFileBody run.setup.mesh run.setup.bytes) below
        → IsLevel run k mesh s seat floor → IsLevel run k mesh t later after }
    ensures seat { (run : RunSeen) (k : ℕ) (result : Result Turn NoMemory) (t : TierState)
        (seat later : SeatSeen) → TurnsSeat result t seat later → IsSeated run k seat
        → IsSeated run k later }
{}

/// A top level holds each base patch, and each patch whose epoch with the keeper is odd; and whatever a level holds is a
/// body of the file that the run began with. A patch that a session has locked has an odd epoch, so it is held here.
pub fn a_top_level_holds_what_is_locked()
    ensures holds { (run : RunSeen) (k : ℕ) (mesh : IndexLists) (s : TierState) (seat : SeatSeen)
        (floor : FloorSeen) (p : ℕ) → IsLevel run k mesh s seat floor → seat.has_words ≡ true
        → p < length run.setup.mesh.fields
        → (is_marked (base_marks run.setup.mesh.fields) p ≡ true)
        ⊎ (is_odd (slice_index seat.desk.epochs p) ≡ true) → is_held s p ≡ true }
    ensures body { (run : RunSeen) (k : ℕ) (mesh : IndexLists) (s : TierState) (seat : SeatSeen)
        (floor : FloorSeen) (p : ℕ) (body : SeenBody) → IsLevel run k mesh s seat floor
        → slice_get s.held p ≡ Some (Some body)
        → IsFileBody run.setup.mesh run.setup.bytes p body }
{}

/// A tier whose journal is empty is a level on each floor that the run may begin on; so is one over which no turn
/// was made. The keeper of a new table is that of the top tier which holds the base.
pub fn a_level_begins()
    ensures starts { (run : RunSeen) (k : ℕ) (mesh : IndexLists) (s : TierState) (seat : SeatSeen)
        (floor : FloorSeen) → IsFileOf mesh run.setup.bytes → mesh ≡ run.setup.mesh
        → IsFirstTier run.setup k s
        → MatchBool seat.has_words (IsTopSeat run.setup s seat.desk) (IsLowerSeat s)
        → IsFirstFloor run.setup run.lender floor → IsLevel run k mesh s seat floor }
    ensures still { (run : RunSeen) (k : ℕ) (mesh : IndexLists) (s : TierState) (seat : SeatSeen)
        (still floor : FloorSeen) → still.is_still ≡ true
        → IsFirstFloor run.setup run.lender floor → IsLevel run k mesh s seat still
        → IsLevel run k mesh s seat floor }
    ensures top { (setup : Setup) (mesh : MeshLists) (body : ℕ → SeenBody) (budget width : ℕ)
        (s : TierState) (desk : Desk) (sessions : ℕ) → IsMesh mesh → mesh.index ≡ setup.mesh
        → s ≡ opened_top mesh.index body budget width
        → ArePins (length mesh.index.fields) (outgoing mesh.index.fields mesh.root) desk.pins
        → desk ≡ record (opened desk.pins) { made = sessions } → IsDesk desk
        → IsTopSeat setup s desk }
    ensures opened { (index : IndexLists) (bytes : Option (List ℕ)) (budgets : List ℕ) (width : ℕ)
        (tiers : List TierState) (s : TierState)
        (opens : IsOpened index bytes budgets width tiers) → slice_get tiers 0 ≡ Some s
        → (budget : ℕ) × (s ≡ opened_top index opens.body budget width) }
    ensures journal { (index : IndexLists) (body : ℕ → SeenBody) (budget width : ℕ)
        → (opened_top index body budget width).journal ≡ [] }
{}
