//! Checking one body at a time.

use crate::adding::add_to_base;
use crate::all_node_sums::{AllNodeSums, empty_all_sums};
use crate::borders::border;
use accepted_mesh::Mesh;
use body_edges::Border;
use edge_chain::EdgeChain;
use grid_vertex::NoMemory;
use mesh_graph::MeshGraph;
use mesh_model::{DagFault, NodeSide};
use patch_file::{Body, Index};
use std::alloc::Global;
use std::marker::Model;

/// A check of a patch file to which the bodies are given one after the other. It keeps no body: only
/// sums of edges, of each inner node from its first body to its last one, and of the base, and the
/// border of the last body.
#[derive(Drop)]
pub struct Checker {
    alloc: Global,
    index: Index,
    graph: MeshGraph,
    next: u32,
    base: EdgeChain,
    all_sums: AllNodeSums,
    border: Border,
}

impl Model for Checker {
    ghost use Rattle.dag_check.specs.AllNodeSums.{all_sums_of};
    ghost use Rattle.dag_check.specs.Checkers.{CheckerSeen, IsChecker};

    ghost Value = { CheckerSeen };

    ghost view = { λ c.
        record {
          index = c.index;
          graph = c.graph;
          next = c.next;
          base = c.base;
          all_sums = all_sums_of c.all_sums;
        } };

    ghost invariant = { λ c.
        IsChecker
        (record {
          index = c.index;
          graph = c.graph;
          next = c.next;
          base = c.base;
          all_sums = all_sums_of c.all_sums;
        }) };
}

impl Checker {
    ghost use Rattle.std.specs.Prelude.{◌≡◌, ◌+◌, ◌<◌, List, length, slice_get, Some, IfOk, MatchResult};
    ghost use Rattle.file_model.specs.Lists.{BodyLists};
    ghost use Rattle.mesh_model.specs.Accepted.{IsAccepted, IsMeshFault, triangles_out_of};
    ghost use Rattle.mesh_model.specs.Meshes.{IsMesh};
    ghost use Rattle.mesh_model.specs.Nets.{HasOpenPairs};
    ghost use Rattle.dag_check.specs.Added.{file_with};
    ghost use Rattle.dag_check.specs.Open.{open_nodes, KeepsPairs};
    ghost use Rattle.dag_check.specs.Checkers.{CheckerSeen, Follows};

    /// A check to which no body was added.
    pub fn begin(alloc: Global, index: Index) -> Result<Checker, NoMemory>
        ensures index { IfOk result (λ checker. checker.index ≡ index) }
        ensures next { IfOk result (λ checker. checker.next ≡ 0) }
        ensures follows { IfOk result
            (λ checker. (bodies : List BodyLists) → Follows checker bodies) }
    {
        let _nodes = index.node_count();
        let graph = MeshGraph::of(alloc, index.nodes(), index.fields())?;
        let all_sums = empty_all_sums(alloc, &index, &graph)?;
        Ok(Checker {
            alloc,
            index,
            graph,
            next: 0,
            base: EdgeChain::new(alloc),
            all_sums,
            border: Border::new(alloc),
        })
    }

    /// Adds the body of the next patch. On want of memory the check is given up.
    pub fn add_body(self, body: &Body) -> Result<Checker, NoMemory>
        requires { self.next < length self.index.fields }
        ensures index { IfOk result (λ checker. checker.index ≡ self.index) }
        ensures next { IfOk result (λ checker. checker.next ≡ self.next + 1) }
        ensures follows { IfOk result
            (λ checker.
            (bodies : List BodyLists) → Follows self bodies
            → slice_get bodies self.next ≡ Some body.now.lists → Follows checker bodies) }
    {
        let Checker {
            alloc,
            index,
            graph,
            next,
            mut base,
            mut all_sums,
            mut border,
        } = self;
        let field = index.patch(next);
        let _patch = body.patch();
        border.find(body)?;
        add_to_base(&mut base, graph.verdict(), field.tail, &border, body)?;
        all_sums.take(alloc, NodeSide::Incoming, field.head, &border, body)?;
        all_sums.take(alloc, NodeSide::Outgoing, field.tail, &border, body)?;
        Ok(Checker {
            alloc,
            index,
            graph,
            next: next + 1,
            base,
            all_sums,
            border,
        })
    }

    /// The number of bodies that were added: the patch whose body comes next.
    pub fn next(&self) -> u32
        ensures { result ≡ self.now.next }
    {
        self.next
    }

    /// The index of the file that is checked.
    pub fn index(&self) -> &Index
        ensures { result.now ≡ self.now.index }
    {
        &self.index
    }

    /// The number of open nodes: inner ones of whose patches some but not all bodies were added.
    pub fn open_nodes(&self) -> u32
        ensures { result
            ≡ open_nodes self.now.index.fields self.now.next (length self.now.index.nodes) }
    {
        self.all_sums.open_nodes
    }

    /// How many pairs of points the checker keeps: for each open node those whose edges don't cancel in
    /// the added bodies of the patches that lead to it, and of those that lead from it. It is counted
    /// anew, in time that grows with the square of a node's pairs.
    pub fn kept_pairs(&self) -> u64
        ensures { (bodies : List BodyLists) → Follows self.now bodies
            → KeepsPairs self.now.index self.now.next bodies result }
    {
        self.all_sums.kept_pairs()
    }

    /// The mesh, or the first fault. It takes no memory. Condition: all bodies were added.
    pub fn finish(self) -> Result<Mesh, DagFault>
        requires { self.next ≡ length self.index.fields }
        ensures verdict { (bodies : List BodyLists) → Follows self bodies
            → MatchResult result (λ mesh. IsAccepted (file_with self.index bodies) mesh.lists.root)
            (IsMeshFault (file_with self.index bodies)) }
        ensures index { IfOk result (λ mesh. mesh.lists.index ≡ self.index) }
        ensures facts { IfOk result (λ mesh. IsMesh mesh.lists) }
        ensures base { (bodies : List BodyLists) → Follows self bodies
            → IfOk result
            (λ mesh.
            HasOpenPairs (triangles_out_of (file_with self.index bodies) mesh.lists.root)
            mesh.base_open) }
    {
        let Checker {
            alloc: _,
            index,
            graph,
            next: _,
            mut base,
            all_sums,
            border: _,
        } = self;
        let root = graph.verdict()?;
        border(all_sums.border_found)?;
        base.gather();
        Ok(Mesh::with(index, graph, root, base.open_edges()))
    }
}
