//! The laws of the levels of a run.

ghost use Rattle.std.specs.Prelude.{◌≡◌, ℕ, suc, true, false, List, [], ◌∷◌, length};
ghost use Rattle.atomic_table.specs.Seated.{TableId};
ghost use Rattle.file_model.specs.Lists.{IndexLists};
ghost use Rattle.mesh_model.specs.Graph.{outgoing};
ghost use Rattle.mesh_model.specs.Meshes.{MeshLists, IsMesh};
ghost use Rattle.token_table.specs.declared.knowledge.Desk.{Desk};
ghost use Rattle.token_table.specs.Known.{IsDesk};
ghost use Rattle.token_table.specs.Makings.{ArePins};
ghost use Rattle.token_table.specs.WordRule.{opened};
ghost use Rattle.tier_model.specs.Tiers.{TierState};
ghost use Rattle.cache_chain.specs.ChainStates.{AreTiersOf};
ghost use Rattle.cache_chain.specs.Opening.{IsOpened};
ghost use Rattle.level_model.specs.Levels.{RunSeen, SeatSeen, FloorSeen, seat_of, IsFileOf, IsLevel};
ghost use Rattle.level_model.specs.FirstLevels.{IsFirstFloor};
ghost use Rattle.level_model.specs.LevelLists.{AreLevels, IsOneLevel, HasLevelsBelow};

/// Levels are taken apart one by one, and what seats and floors between are called makes no difference.
pub fn a_list_of_levels_is_taken_apart()
    ensures one { (run : RunSeen) (mesh : IndexLists) (k : ℕ) (seat : SeatSeen) (s : TierState)
        (floor : FloorSeen) → AreLevels run mesh k seat (s ∷ []) floor
        → IsOneLevel run mesh k seat s floor }
    ensures below { (run : RunSeen) (mesh : IndexLists) (k : ℕ) (seat : SeatSeen)
        (s next : TierState) (others : List TierState) (floor : FloorSeen)
        → AreLevels run mesh k seat (s ∷ next ∷ others) floor
        → HasLevelsBelow run mesh k seat s (next ∷ others) floor }
    ensures above { (run : RunSeen) (k : ℕ) (mesh : IndexLists) (s : TierState) (seat : SeatSeen)
        (none other : FloorSeen) → none.has_store ≡ false → other.has_store ≡ false
        → other.is_still ≡ false → IsLevel run k mesh s seat none
        → IsLevel run k mesh s seat other }
    ensures lower { (run : RunSeen) (k : ℕ) (mesh : IndexLists) (s : TierState)
        (lower again : SeatSeen) (floor : FloorSeen) → lower.has_words ≡ false
        → again.has_words ≡ false → IsLevel run k mesh s lower floor
        → IsLevel run k mesh s again floor }
{}

/// Sessions that give their seats back to the keeper change no level.
pub fn levels_stay_when_sessions_end()
    ensures { (run : RunSeen) (mesh : IndexLists) (k : ℕ) (home : TableId) (tier : ℕ)
        (desk later : Desk) (tiers : List TierState) (floor : FloorSeen)
        → later.epochs ≡ desk.epochs → later.pins ≡ desk.pins → IsDesk later
        → AreLevels run mesh k (seat_of true home tier desk) tiers floor
        → AreLevels run mesh k (seat_of true home tier later) tiers floor }
{}

/// The tiers of a chain that opens are levels, with the keeper of a new table and the store of the chain.
pub fn a_chain_begins_with_levels()
    ensures { (run : RunSeen) (mesh : MeshLists) (tiers : List TierState) (home : TableId)
        (desk : Desk) (sessions : ℕ) (floor : FloorSeen) → IsMesh mesh
        → mesh.index ≡ run.setup.mesh → IsFileOf mesh.index run.setup.bytes
        → AreTiersOf mesh.index run.setup.bytes tiers
        → IsOpened mesh.index run.setup.bytes run.setup.budgets run.setup.width tiers
        → ArePins (length mesh.index.fields) (outgoing mesh.index.fields mesh.root) desk.pins
        → desk ≡ record (opened desk.pins) { made = sessions } → IsDesk desk
        → floor.has_store ≡ true → IsFirstFloor run.setup run.lender floor
        → AreLevels run mesh.index 0 (seat_of true home 0 desk) tiers floor }
{}
