//! What a round keeps to.

use crate::candidates::Candidate;
use accepted_mesh::Mesh;
use error_metric::{Want, scores_of};
use grid_vertex::NoMemory;
use std::alloc::Global;
use std::cmp::Reverse;
use std::marker::Model;

/// The mesh, each node's score, the score that a wanted node is above, and how many triangles a refined
/// frame has at most.
#[derive(Drop)]
pub struct RoundRules<'m> {
    mesh: &'m Mesh,
    scores: Vec<u64>,
    threshold: u64,
    limit: u32,
}

impl<'m> Model for RoundRules<'m> {
    ghost use Rattle.round_model.specs.Order.{Rules};
    ghost use Rattle.cut_refiner.specs.RoundRules.{AreRules};

    ghost Value = { Rules };

    ghost view = { λ r.
        record {
          mesh = r.mesh.now.lists;
          scores = r.scores.items;
          threshold = r.threshold;
          limit = r.limit;
        } };

    ghost invariant = { λ r.
        AreRules
        (record {
          mesh = r.mesh.now.lists;
          scores = r.scores.items;
          threshold = r.threshold;
          limit = r.limit;
        }) };
}

impl<'m> RoundRules<'m> {
    ghost use Rattle.std.specs.Prelude.{◌≡◌, ◌<◌, length, IfOk, nat_le};
    ghost use Rattle.round_model.specs.Views.{rules_of};
    ghost use Rattle.round_model.specs.Order.{score, level};
    ghost use Rattle.round_model.specs.Rounds.{is_wanted};
    ghost use Rattle.cut_refiner.specs.RoundRules.{AreRules};

    /// What is wanted of the mesh, and a limit.
    pub fn new<W: Want>(
        alloc: Global,
        mesh: &'m Mesh,
        want: &W,
        limit: u32,
    ) -> Result<RoundRules<'m>, NoMemory>
        ensures { IfOk result
            (λ r.
            r
            ≡ rules_of mesh.now.lists (W.scores want.now mesh.now.lists)
            (W.least want.now) limit) }
    {
        let scores = scores_of(alloc, mesh, want)?;
        let threshold = want.threshold();
        let _index = mesh.index();
        Ok(RoundRules {
            mesh,
            scores,
            threshold,
            limit,
        })
    }

    pub fn mesh(&self) -> &'m Mesh
        ensures value { result.now.lists ≡ self.now.mesh }
        ensures facts { AreRules self.now }
    {
        self.mesh
    }

    /// Tells whether the node's score is above the threshold.
    pub fn wants(&self, node: u32) -> bool
        requires { node < length self.now.mesh.index.nodes }
        ensures { result ≡ is_wanted self.now node }
    {
        self.scores[node as usize] > self.threshold
    }

    /// Tells whether a frame of so many triangles is within the limit.
    pub fn allows(&self, triangles: u64) -> bool
        ensures { result ≡ nat_le triangles self.now.limit }
    {
        triangles <= u64::from(self.limit)
    }

    /// The node as a candidate.
    pub fn candidate(&self, node: u32) -> Candidate
        requires { node < length self.now.mesh.index.nodes }
        ensures score { result.score ≡ score self.now node }
        ensures level { result.level.0 ≡ level self.now node }
        ensures node { result.node.0 ≡ node }
    {
        Candidate {
            score: self.scores[node as usize],
            level: Reverse(self.mesh.level(node)),
            node: Reverse(node),
        }
    }
}
