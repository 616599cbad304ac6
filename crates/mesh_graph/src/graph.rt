//! The graph of a patch file.

ghost use Rattle.std.specs.Prelude.{◌≡◌, ℕ, ◌<◌, List, length, slice_get, Some, IfOk, IsTrue};
ghost use Rattle.std.specs.List.{list_all};
ghost use Rattle.file_model.specs.declared.fields.PatchField.{PatchField};
ghost use Rattle.file_model.specs.Lists.{IndexLists};
ghost use Rattle.file_model.specs.Rules.{is_node, is_field, is_node_count, is_patch_count};
ghost use Rattle.mesh_model.specs.Graph.{is_root as is_root_of, is_sink as is_sink_of};
ghost use Rattle.mesh_model.specs.Walks.{IsGrounded, IsLevel};
ghost use Rattle.mesh_graph.specs.Adjacency.{is_bare_at};
ghost use Rattle.mesh_graph.specs.Graphs.{index_of, IsGraphOf};

use crate::arcs::Adjacency;
use crate::levels::levels_of;
use crate::verdict::verdict_of;
use file_model::{Node, PatchField};
use grid_vertex::NoMemory;
use mesh_model::{DagFault, NodeSide};
use std::alloc::Global;
use std::marker::Model;

/// The patches on each side of each node, the nodes' levels, and the root or the first fault of the
/// graph alone.
#[derive(Drop)]
pub struct MeshGraph {
    incoming: Adjacency,
    outgoing: Adjacency,
    levels: Vec<Option<u32>>,
    verdict: Result<u32, DagFault>,
}

impl Model for MeshGraph {
    ghost use Rattle.mesh_graph.specs.Graphs.{GraphSeen};

    ghost Value = { GraphSeen };

    ghost view = { λ g.
        record {
          incoming = g.incoming;
          outgoing = g.outgoing;
          levels = g.levels.items;
          verdict = g.verdict;
        } };
}

impl MeshGraph {
    /// The graph of the nodes and patches of a file. The work grows with their numbers together.
    /// Conditions: they keep the rules of a patch file.
    pub fn of(alloc: Global, nodes: &[Node], fields: &[PatchField]) -> Result<MeshGraph, NoMemory>
        requires node_count { IsTrue (is_node_count (length nodes.now)) }
        requires patch_count { IsTrue (is_patch_count (length fields.now)) }
        requires nodes { IsTrue (list_all is_node nodes.now) }
        requires fields { IsTrue (list_all (is_field (length nodes.now)) fields.now) }
        ensures { IfOk result
            (λ graph. (version : ℕ) → IsGraphOf (index_of version nodes.now fields.now) graph) }
    {
        let incoming = Adjacency::of(alloc, NodeSide::Incoming, nodes.len(), fields)?;
        let outgoing = Adjacency::of(alloc, NodeSide::Outgoing, nodes.len(), fields)?;
        let levels = levels_of(alloc, &incoming, &outgoing, fields)?;
        let verdict = verdict_of(&incoming, &outgoing, &levels, nodes, fields);
        Ok(MeshGraph {
            incoming,
            outgoing,
            levels,
            verdict,
        })
    }

    /// The number of nodes.
    pub fn node_count(&self) -> usize
        ensures { result ≡ length self.now.levels }
    {
        self.levels.len()
    }

    /// The patches that lead to a node, ascending.
    pub fn incoming(&self, node: u32) -> &[u32]
        requires { node < length self.now.incoming }
        ensures { slice_get self.now.incoming node ≡ Some result.now }
    {
        self.incoming.patches_of(node)
    }

    /// The patches that lead from a node, ascending.
    pub fn outgoing(&self, node: u32) -> &[u32]
        requires { node < length self.now.outgoing }
        ensures { slice_get self.now.outgoing node ≡ Some result.now }
    {
        self.outgoing.patches_of(node)
    }

    /// The level of a node: the most patches on a walk that ends at it, or None where walks of any
    /// length do.
    pub fn level(&self, node: u32) -> Option<u32>
        requires { node < length self.now.levels }
        ensures { slice_get self.now.levels node ≡ Some result }
    {
        self.levels[node as usize]
    }

    /// Tells whether no patch leads to a node.
    pub fn is_root(&self, node: u32) -> bool
        requires { node < length self.now.incoming }
        ensures seen { result ≡ is_bare_at self.now.incoming node }
        ensures root { (index : IndexLists) → IsGraphOf index self.now
            → result ≡ is_root_of index.fields node }
    {
        self.incoming.is_bare(node)
    }

    /// Tells whether no patch leads from a node.
    pub fn is_sink(&self, node: u32) -> bool
        requires { node < length self.now.outgoing }
        ensures seen { result ≡ is_bare_at self.now.outgoing node }
        ensures sink { (index : IndexLists) → IsGraphOf index self.now
            → result ≡ is_sink_of index.fields node }
    {
        self.outgoing.is_bare(node)
    }

    /// The root of a graph that is nested and has levels, or the first fault of the graph alone.
    pub fn verdict(&self) -> Result<u32, DagFault>
        ensures { result ≡ self.now.verdict }
    {
        self.verdict
    }
}

/// A node has one level at most, and one with a level is grounded.
pub fn levels_are_unique()
    ensures one { (fields : List PatchField) (v a b : ℕ) → IsLevel fields v a → IsLevel fields v b
        → a ≡ b }
    ensures grounded { (fields : List PatchField) (v level : ℕ) → IsLevel fields v level
        → IsGrounded fields v }
{}
