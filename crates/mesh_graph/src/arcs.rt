//! The patches on one side of each node, one list behind the other.

ghost use Rattle.std.specs.Prelude.{◌≡◌, ◌<◌, ◌≤◌, length, slice_get, Some, IfOk};
ghost use Rattle.file_model.specs.declared.limits.TheConstants.{MOST_PATCHES};
ghost use Rattle.mesh_graph.specs.Chains.{HaveNodes};
ghost use Rattle.mesh_graph.specs.Adjacency.{IsAdjacency, is_bare_at};

use crate::chains::{link, push_chain};
use file_model::PatchField;
use grid_vertex::NoMemory;
use mesh_model::NodeSide;
use std::alloc::Global;
use std::marker::Model;

/// Where a node's patches stand.
#[derive(Clone, Copy)]
pub struct Span {
    pub start: usize,
    pub end: usize,
}

/// The patches on one side of each node, seen as a list for each node.
#[derive(Drop)]
pub struct Adjacency {
    patches: Vec<u32>,
    spans: Vec<Span>,
}

impl Model for Adjacency {
    ghost use Rattle.std.specs.Prelude.{ℕ, List};
    ghost use Rattle.mesh_graph.specs.Spans.{lists_in, AreSpans};

    ghost Value = { List (List ℕ) };

    ghost view = { λ a. lists_in a.patches.items a.spans.items };

    ghost invariant = { λ a. AreSpans a.patches.items a.spans.items };
}

impl Adjacency {
    /// The patches on one side of each of so many nodes, ascending.
    pub fn of(
        alloc: Global,
        side: NodeSide,
        nodes: usize,
        fields: &[PatchField],
    ) -> Result<Adjacency, NoMemory>
        requires ends { HaveNodes side nodes fields.now }
        requires count { length fields.now ≤ MOST_PATCHES }
        ensures { IfOk result (IsAdjacency side fields.now nodes) }
    {
        let chains = link(alloc, side, nodes, fields)?;
        let mut patches = Vec::new(alloc);
        let mut spans = Vec::new(alloc);
        for first in &chains.first {
            let start = patches.len();
            push_chain(&mut patches, &chains.next, *first)?;
            let end = patches.len();
            spans.push(Span { start, end })?;
        }
        Ok(Adjacency { patches, spans })
    }

    /// The patches of a node.
    pub fn patches_of(&self, node: u32) -> &[u32]
        requires { node < length self.now }
        ensures { slice_get self.now node ≡ Some result.now }
    {
        let span = self.spans[node as usize];
        &self.patches[span.start..span.end]
    }

    /// Tells whether a node has no patches.
    pub fn is_bare(&self, node: u32) -> bool
        requires { node < length self.now }
        ensures { result ≡ is_bare_at self.now node }
    {
        self.patches_of(node).is_empty()
    }

    /// The number of nodes.
    pub fn node_count(&self) -> usize
        ensures { result ≡ length self.now }
    {
        self.spans.len()
    }
}
