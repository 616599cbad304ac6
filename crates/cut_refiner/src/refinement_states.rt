//! Where a round is in the order of the nodes.

ghost use Rattle.std.specs.Prelude.{◌≡◌, ◌≢◌, ℕ, ◌<◌, ◌≤◌, ◌-◌, List, length, replicate, slice_index, slice_set, false, not, IfOk};
ghost use Rattle.mesh_model.specs.Graph.{is_sink};
ghost use Rattle.round_model.specs.Order.{node_order};
ghost use Rattle.round_model.specs.Rounds.{has, with_member, frame_size, root_set};
ghost use Rattle.round_laws.specs.Among.{is_among};
ghost use Rattle.cut_refiner.specs.RefinementStates.{IsWaiting, IsGoing, CanJoin, IsNext};

use crate::candidates::Candidates;
use crate::growing_cuts::GrowingCut;
use crate::round_rules::RoundRules;
use grid_vertex::NoMemory;
use std::alloc::Global;

/// The set of a round, and the wanted nodes of the rest of the order whose parents are all in it.
#[derive(Drop)]
pub struct RefinementState {
    pub growing: GrowingCut,
    pub candidates: Candidates,
    /// How many triangles lead out of the set with the node that came last from `next`.
    pub next_size: u64,
}

impl RefinementState {
    /// The set of no nodes.
    fn empty(alloc: Global, rules: &RoundRules) -> Result<RefinementState, NoMemory>
        ensures set { IfOk result
            (λ refinement.
            refinement.growing.in_cut.items
            ≡ replicate (length rules.now.mesh.index.nodes) false) }
        ensures root { IfOk result
            (λ refinement.
            CanJoin rules.now (node_order rules.now) refinement rules.now.mesh.root) }
    {
        let mesh = rules.mesh();
        let growing = GrowingCut::empty(alloc, mesh)?;
        let candidates = Candidates::with_room(alloc, mesh.index().node_count() as usize)?;
        Ok(RefinementState {
            growing,
            candidates,
            next_size: 0,
        })
    }

    /// The set of the root alone, before all other nodes.
    pub fn begin(alloc: Global, rules: &RoundRules) -> Result<RefinementState, NoMemory>
        ensures set { IfOk result
            (λ refinement. refinement.growing.in_cut.items ≡ root_set rules.now) }
        ensures going { IfOk result
            (λ refinement. IsGoing rules.now (node_order rules.now) refinement) }
    {
        let mut refinement = RefinementState::empty(alloc, rules)?;
        let mesh = rules.mesh();
        let root = mesh.root();
        let size = refinement.growing.size_with(mesh, root);
        refinement.join(rules, root, size);
        Ok(refinement)
    }

    /// Puts the node into the set, out of which then so many triangles lead.
    pub fn join(&mut self, rules: &RoundRules, node: u32, size: u64)
        requires can { (rest : List ℕ) × CanJoin rules.now rest self.old node }
        requires size { size
            ≡ frame_size (has (with_member self.old.growing.in_cut.items node))
            rules.now.mesh.index.fields }
        ensures set { self.new.growing.in_cut.items
            ≡ with_member self.old.growing.in_cut.items node }
        ensures going { (rest : List ℕ) → CanJoin rules.now rest self.old node
            → IsGoing rules.now rest self.new }
    {
        let mesh = rules.mesh();
        self.growing.size = size;
        self.growing.in_cut[node as usize] = true;
        for patch in mesh.outgoing(node) {
            let head = mesh.index().patch(*patch).head;
            self.release(rules, head);
        }
    }

    /// One patch less leads to the node from outside the set; after the last one the node is a candidate
    /// where it is wanted and no sink.
    fn release(&mut self, rules: &RoundRules, node: u32)
        requires node { node < length rules.now.mesh.index.nodes }
        requires counts { length self.old.growing.missing.items
            ≡ length rules.now.mesh.index.nodes }
        requires missed { 0 < slice_index self.old.growing.missing.items node }
        requires room { length self.old.candidates.items < self.old.candidates.room }
        ensures missing { self.new.growing.missing.items
            ≡ slice_set self.old.growing.missing.items node
            (slice_index self.old.growing.missing.items node - 1) }
        ensures set { self.new.growing.in_cut.items ≡ self.old.growing.in_cut.items }
        ensures size { self.new.growing.size ≡ self.old.growing.size }
        ensures room { self.old.candidates.room ≤ self.new.candidates.room }
        ensures waiting { (rest : List ℕ)
            → IsWaiting rules.now rest self.old.growing.missing.items self.old.candidates.items
            → is_among rest node ≡ not (is_sink rules.now.mesh.index.fields node)
            → IsWaiting rules.now rest self.new.growing.missing.items self.new.candidates.items }
    {
        let mesh = rules.mesh();
        self.growing.missing[node as usize] -= 1;
        if self.growing.missing[node as usize] == 0 && !mesh.is_sink(node) && rules.wants(node) {
            self.candidates.push(rules.candidate(node));
        }
    }

    /// The first node of the rest of the order that is tried by this set, after which the rest begins
    /// then; None where there is none.
    pub fn next(&mut self, rules: &RoundRules) -> Option<u32>
        requires { (rest : List ℕ) × IsGoing rules.now rest self.old }
        ensures growing { self.new.growing ≡ self.old.growing }
        ensures next { (rest : List ℕ) → IsGoing rules.now rest self.old
            → IsNext rules.now rest self.new result }
    {
        let mesh = rules.mesh();
        while let Some(candidate) = self.candidates.pop() {
            let node = candidate.node.0;
            let size = self.growing.size_with(mesh, node);
            if rules.allows(size) {
                self.next_size = size;
                return Some(node);
            }
        }
        None
    }
}
