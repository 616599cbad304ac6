//! What a run by threads leaves: its levels, ranked by a board without views and renewed, are tiers at rest, over
//! which a machine goes on.
//!
//! Code is only the laws' names, on functions that do nothing. The definitions stand in `specs/Left.antt`, and what
//! a level is and from which tiers a run goes on in `level_model` and `resumed_model`.
#![tactic(auto)]

ghost use Rattle.std.specs.Prelude.{◌≡◌, ℕ, ◌≤◌, true, List, Some, length, map, slice_get, slice_index};
ghost use Rattle.atomic_table.specs.Seated.{TableId};
ghost use Rattle.mesh_model.specs.Meshes.{MeshLists, IsMesh};
ghost use Rattle.token_words.specs.declared.plain_words.PlainTokens.{PlainTokens};
ghost use Rattle.token_table.specs.declared.knowledge.Desk.{Desk};
ghost use Rattle.token_table.specs.Closings.{HasDesk};
ghost use Rattle.tier_model.specs.Tiers.{TierState};
ghost use Rattle.detail_laws.specs.Needs.{KeepsBase};
ghost use Rattle.cache_chain.specs.ChainStates.{AreTiersOf};
ghost use Rattle.run_model.specs.Worlds.{IsWorld};
ghost use Rattle.resumed_model.specs.Resting.{AreResting};
ghost use Rattle.level_model.specs.Levels.{RunSeen, FloorSeen, seat_of};
ghost use Rattle.level_model.specs.LevelLists.{AreLevels};
ghost use Rattle.view_machine.specs.Machines.{world_with};
ghost use Rattle.view_machine.specs.RestMachines.{RestsOver};
ghost use Rattle.left_runs.specs.Left.{unwished, world_left};

/// The tiers of a run's levels, a level for each budget, are at rest in the run's world when they wish nothing any
/// more: with the keeper's epochs a run goes on from them. Their base patches are where the opening put them.
pub fn levels_leave_tiers_at_rest()
    ensures world { (mesh : MeshLists) (run : RunSeen) → mesh.index ≡ run.setup.mesh → IsMesh mesh
        → (home : TableId) (desk : Desk) (tiers : List TierState) (floor : FloorSeen)
        → length tiers ≡ length run.setup.budgets
        → AreLevels run mesh.index 0 (seat_of true home 0 desk) tiers floor
        → IsWorld (world_left mesh run.setup) }
    ensures rest { (mesh : MeshLists) (run : RunSeen) → mesh.index ≡ run.setup.mesh → IsMesh mesh
        → (home : TableId) (desk : Desk) (tiers : List TierState) (floor : FloorSeen)
        → length tiers ≡ length run.setup.budgets
        → AreLevels run mesh.index 0 (seat_of true home 0 desk) tiers floor
        → AreResting (world_left mesh run.setup) (map unwished tiers) (slice_index desk.epochs) }
    ensures bases { (mesh : MeshLists) (run : RunSeen) → mesh.index ≡ run.setup.mesh → IsMesh mesh
        → (home : TableId) (desk : Desk) (tiers : List TierState) (floor : FloorSeen)
        → length tiers ≡ length run.setup.budgets
        → AreLevels run mesh.index 0 (seat_of true home 0 desk) tiers floor
        → (k : ℕ) (t : TierState) → slice_get (map unwished tiers) k ≡ Some t → KeepsBase t }
{}

/// A machine over them goes on with the words that the keeper leaves: they are 1 to 4 tiers of the mesh's file, and
/// their world is the run's.
pub fn a_machine_goes_on_over_what_is_left()
    ensures world { (mesh : MeshLists) (run : RunSeen) → mesh.index ≡ run.setup.mesh → IsMesh mesh
        → (home : TableId) (desk : Desk) (tiers : List TierState) (floor : FloorSeen)
        → length tiers ≡ length run.setup.budgets
        → AreLevels run mesh.index 0 (seat_of true home 0 desk) tiers floor
        → world_with mesh run.setup.bytes (map unwished tiers) ≡ world_left mesh run.setup }
    ensures tiers { (mesh : MeshLists) (run : RunSeen) → mesh.index ≡ run.setup.mesh → IsMesh mesh
        → (home : TableId) (desk : Desk) (tiers : List TierState) (floor : FloorSeen)
        → length tiers ≡ length run.setup.budgets
        → AreLevels run mesh.index 0 (seat_of true home 0 desk) tiers floor → length tiers ≤ 4
        → AreTiersOf mesh.index run.setup.bytes (map unwished tiers) }
    ensures rests { (mesh : MeshLists) (run : RunSeen) → mesh.index ≡ run.setup.mesh → IsMesh mesh
        → (home : TableId) (desk : Desk) (tiers : List TierState) (floor : FloorSeen)
        → length tiers ≡ length run.setup.budgets
        → AreLevels run mesh.index 0 (seat_of true home 0 desk) tiers floor
        → (words : PlainTokens) → HasDesk desk words
        → RestsOver mesh run.setup.bytes (map unwished tiers) words }
{}
