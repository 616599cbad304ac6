//! A round, step by step.

use crate::cut_lists::CutLists;
use crate::hands::go_on;
use crate::locks::Locks;
use crate::refinement_states::RefinementState;
use crate::round_rules::RoundRules;
use accepted_mesh::Mesh;
use error_metric::Want;
use file_model::{Try, is_granted};
use grid_vertex::NoMemory;
use round_model::Ask;
use std::alloc::Global;
use std::marker::Model;

/// A round over a mesh: it says what is tried next, and takes the answers. All its memory is taken when
/// it begins.
#[derive(Drop)]
pub struct Refiner<'m> {
    rules: RoundRules<'m>,
    refinement: RefinementState,
    hand: Option<u32>,
    locks: Locks,
    tries: Vec<Try>,
    lists: CutLists,
}

impl<'m> Model for Refiner<'m> {
    ghost use Rattle.round_model.specs.Refiners.{Refining};

    ghost Value = { Refining };

    ghost use Rattle.cut_refiner.specs.Refiners.{IsRefiner};

    ghost view = { λ r. record { rules = r.rules; tries = r.tries.items; owed = r.locks.owed } };

    ghost invariant = { λ r. IsRefiner r.rules r.tries r.refinement r.lists r.locks r.hand };
}

impl<'m> Refiner<'m> {
    ghost use Rattle.std.specs.Prelude.{◌≡◌, ℕ, ◌<◌, ◌≤◌, [], length, IfOk};
    ghost use Rattle.file_model.specs.Lists.{FileLists};
    ghost use Rattle.file_model.specs.declared.limits.TheConstants.{MOST_NODES, MOST_PATCHES};
    ghost use Rattle.mesh_model.specs.Nets.{HaveOneNet};
    ghost use Rattle.mesh_model.specs.Frames.{IsCut};
    ghost use Rattle.mesh_model.specs.Accepted.{IsAccepted, triangles_out_of};
    ghost use Rattle.round_model.specs.Rounds.{has, IsWhole};
    ghost use Rattle.round_model.specs.Refiners.{round_state, pending_ask, after_answer, after_release, cut_of, cut_patches};
    ghost use Rattle.round_model.specs.declared.asks.Ask.TheVariants.{Lock, GiveBack, Done};
    ghost use Rattle.mesh_laws.specs.Frames.{frame_of_set};
    ghost use Rattle.round_model.specs.Views.{rules_of};

    /// A round at its start, in which a frame with more than `limit` triangles is not refined to. Only
    /// this call takes memory.
    pub fn begin<W: Want>(
        alloc: Global,
        mesh: &'m Mesh,
        want: &W,
        limit: u32,
    ) -> Result<Refiner<'m>, NoMemory>
        ensures rules { IfOk result
            (λ r.
            r.rules
            ≡ rules_of mesh.now.lists (W.scores want.now mesh.now.lists)
            (W.least want.now) limit) }
        ensures tries { IfOk result (λ r. r.tries ≡ []) }
        ensures owed { IfOk result (λ r. r.owed ≡ []) }
    {
        let rules = RoundRules::new(alloc, mesh, want, limit)?;
        let index = rules.mesh().index();
        let tries = Vec::with_capacity(alloc, index.patch_count() as usize)?;
        let mut lists = CutLists::with_room(
            alloc,
            index.node_count() as usize,
            index.patch_count() as usize,
        )?;
        let locks = Locks::with_room(alloc, rules.mesh().greatest_degree())?;
        let mut refinement = RefinementState::begin(alloc, &rules)?;
        let hand = go_on(&rules, &mut refinement, &mut lists);
        Ok(Refiner {
            rules,
            refinement,
            hand,
            locks,
            tries,
            lists,
        })
    }

    /// What comes next.
    pub fn ask(&self) -> Ask
        ensures asked { result ≡ pending_ask self.now }
        ensures whole { result ≡ Done → IsWhole (round_state self.now) }
        // Where a patch is asked for, fewer were tried than there are.
        ensures room { (patch : ℕ) → result ≡ Lock patch
            → length self.now.tries < length self.now.rules.mesh.index.fields }
    {
        if let Some(patch) = self.locks.first_owed() {
            return Ask::GiveBack(patch);
        }
        match self.hand {
            Some(node) => Ask::Lock(self.rules.mesh().outgoing(node)[self.locks.count()]),
            None => Ask::Done,
        }
    }

    /// Takes the answer to the try that is asked for: its epoch. Condition: `ask` gives `Lock`.
    pub fn tell(&mut self, epoch: u32)
        requires { (patch : ℕ) × (pending_ask self.old ≡ Lock patch) }
        ensures { (patch : ℕ) → pending_ask self.old ≡ Lock patch
            → self.new ≡ after_answer self.old patch epoch }
    {
        let node = match self.hand {
            Some(node) => node,
            None => unreachable!(),
        };
        let patches = self.rules.mesh().outgoing(node);
        let patch = patches[self.locks.count()];
        self.tries.push_reserved(Try { patch, epoch });
        if !is_granted(epoch) {
            self.locks.owe();
            self.hand = go_on(&self.rules, &mut self.refinement, &mut self.lists);
            return;
        }
        self.locks.add(patch);
        if self.locks.count() < patches.len() {
            return;
        }
        self.locks.keep();
        let size = self.refinement.next_size;
        self.refinement.join(&self.rules, node, size);
        self.hand = go_on(&self.rules, &mut self.refinement, &mut self.lists);
    }

    /// The patch that is asked for was given back. Condition: `ask` gives `GiveBack`.
    pub fn gave_back(&mut self)
        requires { (patch : ℕ) × (pending_ask self.old ≡ GiveBack patch) }
        ensures { self.new ≡ after_release self.old }
    {
        self.locks.give_back();
    }

    /// All answers so far, in the order of the tries.
    pub fn tries(&self) -> &[Try]
        ensures value { result.now ≡ self.now.tries }
        ensures round { result.now ≡ (round_state self.now).tries }
    {
        &self.tries
    }

    /// The nodes of the cut, ascending. Condition: `ask` gives `Done`.
    pub fn cut(&self) -> &[u32]
        requires { pending_ask self.now ≡ Done }
        ensures nodes { result.now ≡ cut_of self.now }
        ensures cut { IsCut self.now.rules.mesh.index.fields self.now.rules.mesh.root
            (has (round_state self.now).set) }
        ensures few { length result.now ≤ MOST_NODES }
    {
        &self.lists.nodes
    }

    /// The patches of the cut's frame, ascending. Condition: `ask` gives `Done`.
    pub fn patches(&self) -> &[u32]
        requires { pending_ask self.now ≡ Done }
        ensures patches { result.now ≡ cut_patches self.now }
        ensures boundary { (file : FileLists) → IsAccepted file self.now.rules.mesh.root
            → file.index ≡ self.now.rules.mesh.index
            → HaveOneNet (frame_of_set file (has (round_state self.now).set))
            (triangles_out_of file self.now.rules.mesh.root) }
        ensures few { length result.now ≤ MOST_PATCHES }
    {
        &self.lists.patches
    }
}
