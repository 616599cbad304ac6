//! The laws of rounds: in which order nodes are tried, that scores fall along arcs, that the set of a round
//! is a cut, and how a round goes on when more is answered.
//!
//! Code is only the laws' names, on functions that do nothing. The lemmas that lead to them stand in
//! `specs/`, where the crates that refine cuts cite them.
#![tactic(auto)]

ghost use Rattle.std.specs.Prelude.{◌≡◌, ◌⊎◌, ℕ, ◌<◌, ◌≤◌, Bool, true, false, List, [], ◌∷◌, ◌++◌, length, slice_get, slice_index, Some, None, IsTrue};
ghost use Rattle.std.specs.List.{AllByRecursion};
ghost use Rattle.std.specs.List.Sorted.{IsPermutation};
ghost use Rattle.grid_vertex.specs.declared.points.Point.{Point};
ghost use Rattle.file_model.specs.declared.fields.Node.{Node};
ghost use Rattle.file_model.specs.declared.fields.PatchField.{PatchField};
ghost use Rattle.file_model.specs.declared.fields.Try.{Try};
ghost use Rattle.file_model.specs.Lists.{FileLists};
ghost use Rattle.mesh_model.specs.Graph.{is_sink, outgoing};
ghost use Rattle.mesh_model.specs.Nets.{HaveOneNet};
ghost use Rattle.mesh_model.specs.Frames.{IsCut};
ghost use Rattle.mesh_model.specs.Accepted.{is_inner, has_no_more_error, has_ball_within, IsAccepted, triangles_out_of};
ghost use Rattle.mesh_model.specs.Meshes.{MeshLists, IsMesh};
ghost use Rattle.round_model.specs.Scores.{score_of};
ghost use Rattle.round_model.specs.Order.{Rules, comes_before, node_order};
ghost use Rattle.file_model.specs.Tries.{is_odd};
ghost use Rattle.round_model.specs.Tries.{OpenAt, tried_patches};
ghost use Rattle.round_model.specs.Rounds.{NodeInProgress, RoundState, epochs_of, has, with_member, frame_size, is_tried, round_from, root_set, round_of};
ghost use Rattle.mesh_laws.specs.Frames.{frame_of_set};
ghost use Rattle.round_laws.specs.Ascending.{Ascends, inner_nodes, IsInnerNode};
ghost use Rattle.round_laws.specs.Answers.{IsAnswered, IsOpenAt, with_unused, try_of};
ghost use Rattle.round_laws.specs.Epochs.{with_spare, StandsAt};
ghost use Rattle.round_laws.specs.Parents.{FallsAlong, AreScoresFrom};
ghost use Rattle.round_laws.specs.Cuts.{IsRootOrWanted};

/// Which of two nodes is tried before the other is a strict order, and total on distinct nodes.
pub fn nodes_come_in_an_order()
    ensures transitive { (rules : Rules) (u v w : ℕ) → comes_before rules u v ≡ true
        → comes_before rules v w ≡ true → comes_before rules u w ≡ true }
    ensures never_itself { (rules : Rules) (v : ℕ) → comes_before rules v v ≡ false }
    ensures total { (rules : Rules) (u v : ℕ) → (u ≡ v → ⊥)
        → (comes_before rules u v ≡ true) ⊎ (comes_before rules v u ≡ true) }
{}

/// The nodes are tried each once, those that are neither root nor sink and no others, and each before all
/// that it comes before.
pub fn each_inner_node_is_tried_once()
    ensures permuted { (rules : Rules) → IsPermutation (inner_nodes rules) (node_order rules) }
    ensures each { (rules : Rules) (v : ℕ) → IsInnerNode rules v
        → (k : ℕ) × (slice_get (node_order rules) k ≡ Some v) }
    ensures inner { (rules : Rules) → AllByRecursion (IsInnerNode rules) (node_order rules) }
    ensures ascending { (rules : Rules) → Ascends rules (node_order rules) }
{}

/// A node whose error is no greater than another's, in a ball that the other's holds, has no greater score,
/// from whatever eye.
pub fn score_falls_along_arcs()
    ensures falls { (eye : Point) (focal : ℕ) (tail head : Node)
        → IsTrue (has_no_more_error tail head) → IsTrue (has_ball_within tail head)
        → score_of eye focal head ≤ score_of eye focal tail }
    ensures along_arcs { (eye : Point) (focal : ℕ) (rules : Rules) → IsMesh rules.mesh
        → AreScoresFrom eye focal rules → FallsAlong rules }
{}

/// The set of a round is a cut, whatever was answered: it has the root and wanted nodes alone, and its frame
/// is within the limit once a node has joined.
pub fn set_of_a_round_is_a_cut()
    ensures cut { (rules : Rules) → IsMesh rules.mesh → (epochs : List ℕ)
        → IsCut rules.mesh.index.fields rules.mesh.root (has (round_of rules epochs).set) }
    ensures members { (rules : Rules) (epochs : List ℕ) (v : ℕ)
        → has (round_of rules epochs).set v ≡ true → IsRootOrWanted rules v }
    ensures limit { (rules : Rules) (epochs : List ℕ)
        → ((round_of rules epochs).set ≡ root_set rules)
        ⊎ (frame_size (has (round_of rules epochs).set) rules.mesh.index.fields ≤ rules.limit) }
    ensures flags { (rules : Rules) (epochs : List ℕ)
        → length (round_of rules epochs).set ≡ length rules.mesh.index.nodes }
{}

/// The frame of every round over an accepted mesh has the net of the root's triangles, at each pair of points.
pub fn frame_of_a_round_has_the_boundary()
    ensures boundary { (rules : Rules) (file : FileLists) (epochs : List ℕ) → IsMesh rules.mesh
        → IsAccepted file rules.mesh.root → file.index ≡ rules.mesh.index
        → HaveOneNet (frame_of_set file (has (round_of rules epochs).set))
        (triangles_out_of file rules.mesh.root) }
{}

/// The tries of a node's patches use the epochs in order, and none after the last answer. Where an answer is
/// wanting, all before it were granted.
pub fn tries_use_epochs_in_order()
    ensures epochs { (patches epochs : List ℕ)
        → epochs_of (tried_patches patches epochs).tries ++ (tried_patches patches epochs).unused
        ≡ epochs }
    ensures answered { (patches epochs more : List ℕ)
        → IsAnswered (tried_patches patches epochs).verdict
        → tried_patches patches (epochs ++ more) ≡ with_unused more (tried_patches patches epochs) }
    ensures stands { (patches epochs : List ℕ) (patch : ℕ)
        → (tried_patches patches epochs).verdict ≡ OpenAt patch
        → IsOpenAt patches epochs (tried_patches patches epochs) patch }
{}

/// A round with more epochs goes on where it stood: one that was through leaves them over, and one that
/// stood at a patch takes the next epoch as that patch's answer.
pub fn a_round_goes_on_where_it_stood()
    ensures epochs { (rules : Rules) (epochs : List ℕ)
        → epochs_of (round_of rules epochs).tries ++ (round_of rules epochs).unused ≡ epochs }
    ensures through { (rules : Rules) (epochs more : List ℕ) → (round_of rules epochs).at ≡ None
        → round_of rules (epochs ++ more) ≡ with_spare more (round_of rules epochs) }
    ensures stands { (rules : Rules) (epochs : List ℕ) (hand : NodeInProgress)
        → (round_of rules epochs).at ≡ Some hand
        → StandsAt rules (node_order rules) (root_set rules) [] epochs (round_of rules epochs)
        hand }
{}

/// One answer moves a round on that stands at a patch: an even epoch drops the node in hand, and an odd one
/// leads to the node's next patch, or puts the node into the set after its last.
pub fn an_answer_moves_a_round_on()
    ensures refused { (rules : Rules) (vs : List ℕ) (start : List Bool) (begun : List Try)
        (epochs : List ℕ) (stand : RoundState) (hand : NodeInProgress)
        (at : StandsAt rules vs start begun epochs stand hand) (epoch : ℕ) (more : List ℕ)
        → is_odd epoch ≡ false
        → round_from rules vs start begun (epochs ++ epoch ∷ more)
        ≡ round_from rules at.rest stand.set (stand.tries ++ try_of hand.patch epoch ∷ [])
        more }
    ensures granted { (rules : Rules) (vs : List ℕ) (start : List Bool) (begun : List Try)
        (epochs : List ℕ) (stand : RoundState) (hand : NodeInProgress)
        (at : StandsAt rules vs start begun epochs stand hand) (epoch next : ℕ) (later : List ℕ)
        → is_odd epoch ≡ true → at.later ≡ next ∷ later
        → round_from rules vs start begun (epochs ++ epoch ∷ [])
        ≡ record {
          set = stand.set;
          tries = stand.tries ++ try_of hand.patch epoch ∷ [];
          at = Some
              (record {
                node = hand.node;
                granted = hand.granted ++ try_of hand.patch epoch ∷ [];
                patch = next;
              });
          unused = [];
        } }
    ensures granted_last { (rules : Rules) (vs : List ℕ) (start : List Bool) (begun : List Try)
        (epochs : List ℕ) (stand : RoundState) (hand : NodeInProgress)
        (at : StandsAt rules vs start begun epochs stand hand) (epoch : ℕ) (more : List ℕ)
        → is_odd epoch ≡ true → at.later ≡ []
        → round_from rules vs start begun (epochs ++ epoch ∷ more)
        ≡ round_from rules at.rest (with_member stand.set hand.node)
        (stand.tries ++ try_of hand.patch epoch ∷ []) more }
{}

/// Levels rise along arcs, and where scores don't rise along them a node's parents are tried before it.
pub fn parents_are_tried_first()
    ensures levels { (mesh : MeshLists) → IsMesh mesh → (p : ℕ) (f : PatchField)
        → slice_get mesh.index.fields p ≡ Some f
        → slice_index mesh.levels f.tail < slice_index mesh.levels f.head }
    ensures before { (rules : Rules) → IsMesh rules.mesh → FallsAlong rules
        → (p : ℕ) (f : PatchField) → slice_get rules.mesh.index.fields p ≡ Some f
        → is_sink rules.mesh.index.fields f.head ≡ false → comes_before rules f.tail f.head ≡ true }
    ensures first { (rules : Rules) → IsMesh rules.mesh → FallsAlong rules
        → (p : ℕ) (f : PatchField) → slice_get rules.mesh.index.fields p ≡ Some f
        → is_inner rules.mesh.index.fields f.tail ≡ true → (j : ℕ)
        → slice_get (node_order rules) j ≡ Some f.head
        → (i : ℕ) × (i < j) × (slice_get (node_order rules) i ≡ Some f.tail) }
{}

/// A round passes the nodes that aren't tried, and without an answer it stands at the first patch of the next
/// one that is; an inner node has a first patch.
pub fn a_round_begins_at_a_first_patch()
    ensures passes { (rules : Rules) (gone vs : List ℕ) (set : List Bool) (begun : List Try)
        (epochs : List ℕ) → AllByRecursion (λ v. is_tried rules set v ≡ false) gone
        → round_from rules (gone ++ vs) set begun epochs ≡ round_from rules vs set begun epochs }
    ensures begins { (rules : Rules) (v p : ℕ) (vs later : List ℕ) (set : List Bool)
        (begun : List Try) → is_tried rules set v ≡ true
        → outgoing rules.mesh.index.fields v ≡ p ∷ later
        → round_from rules (v ∷ vs) set begun []
        ≡ record {
          set = set;
          tries = begun;
          at = Some (record { node = v; granted = []; patch = p });
          unused = [];
        } }
    ensures first { (fields : List PatchField) (v : ℕ) → is_sink fields v ≡ false
        → (p : ℕ) × (later : List ℕ) × (outgoing fields v ≡ p ∷ later) }
{}

/// In an ascending list a node that comes after another stands behind it, and what stands in front of a node
/// comes before it.
pub fn a_later_node_stands_behind()
    ensures in_front { (rules : Rules) (v : ℕ) (gone rest : List ℕ)
        → Ascends rules (gone ++ v ∷ rest)
        → AllByRecursion (λ u. comes_before rules u v ≡ true) gone }
    ensures rest { (rules : Rules) (v : ℕ) (gone rest : List ℕ) → Ascends rules (gone ++ v ∷ rest)
        → AllByRecursion (λ u. comes_before rules v u ≡ true) rest × Ascends rules rest }
    ensures behind { (rules : Rules) (v w : ℕ) (gone rest : List ℕ)
        → Ascends rules (gone ++ v ∷ rest) → (k : ℕ) → slice_get (gone ++ v ∷ rest) k ≡ Some w
        → comes_before rules v w ≡ true → (i : ℕ) × (slice_get rest i ≡ Some w) }
{}
