//! Accepted meshes.

use mesh_graph::MeshGraph;
use patch_file::Index;
use std::marker::Model;

/// What an accepted mesh says but for its bodies: its index, its root, and each node's level and patches.
#[derive(Drop)]
pub struct Mesh {
    index: Index,
    graph: MeshGraph,
    root: u32,
    base_open: u64,
    triangle_sum: u64,
    greatest_degree: usize,
}

impl Model for Mesh {
    ghost use Rattle.accepted_mesh.specs.MeshView.{MeshSeen, mesh_seen, IsMeshState, AreTotals};

    ghost Value = { MeshSeen };

    ghost view = { λ m. mesh_seen m.index m.graph m.root m.base_open };

    ghost invariant = { λ m.
        IsMeshState m.index m.graph m.root × AreTotals m.index m.triangle_sum m.greatest_degree };
}

impl Mesh {
    ghost use Rattle.std.specs.Prelude.{◌≡◌, ◌<◌, length, slice_get, Some};
    ghost use Rattle.mesh_model.specs.Graph.{incoming, outgoing, is_sink};
    ghost use Rattle.mesh_model.specs.Accepted.{IsNestedGraph};
    ghost use Rattle.mesh_model.specs.Meshes.{IsMesh};
    ghost use Rattle.mesh_model.specs.Frames.{triangles_in_all};
    ghost use Rattle.accepted_mesh.specs.MeshView.{mesh_seen, IsMeshState, IsGreatestDegree};

    /// The mesh of an index whose graph was found to be nested from the root. Condition: all is of one
    /// file. `base_open` is the number of open pairs of the root's patches.
    pub fn with(index: Index, graph: MeshGraph, root: u32, base_open: u64) -> Mesh
        requires { IsMeshState index graph root }
        ensures { result ≡ mesh_seen index graph root base_open }
    {
        let triangle_sum = triangle_sum_of(&index);
        let greatest_degree = greatest_degree_of(&index, &graph);
        Mesh {
            index,
            graph,
            root,
            base_open,
            triangle_sum,
            greatest_degree,
        }
    }

    /// The version, the nodes and the patch fields.
    pub fn index(&self) -> &Index
        ensures value { result.now ≡ self.now.lists.index }
        ensures facts { IsMesh self.now.lists }
    {
        &self.index
    }

    /// The one node to which no patch leads.
    pub fn root(&self) -> u32
        ensures value { result ≡ self.now.lists.root }
        ensures facts { IsMesh self.now.lists }
    {
        self.root
    }

    /// The length of the longest walk that ends at the node.
    pub fn level(&self, node: u32) -> u32
        requires { node < length self.now.lists.index.nodes }
        ensures { slice_get self.now.lists.levels node ≡ Some result }
    {
        match self.graph.level(node) {
            Some(level) => level,
            None => unreachable!(),
        }
    }

    /// Tells whether no patch leads from the node.
    pub fn is_sink(&self, node: u32) -> bool
        requires { node < length self.now.lists.index.nodes }
        ensures { result ≡ is_sink self.now.lists.index.fields node }
    {
        self.graph.is_sink(node)
    }

    /// The patches that lead to the node, ascending.
    pub fn incoming(&self, node: u32) -> &[u32]
        requires { node < length self.now.lists.index.nodes }
        ensures { result.now ≡ incoming self.now.lists.index.fields node }
    {
        self.graph.incoming(node)
    }

    /// The patches that lead from the node, ascending.
    pub fn outgoing(&self, node: u32) -> &[u32]
        requires { node < length self.now.lists.index.nodes }
        ensures { result.now ≡ outgoing self.now.lists.index.fields node }
    {
        self.graph.outgoing(node)
    }

    /// The patches of the coarsest frame, those that lead from the root, ascending.
    pub fn base(&self) -> &[u32]
        ensures { result.now ≡ outgoing self.now.lists.index.fields self.now.lists.root }
    {
        self.graph.outgoing(self.root)
    }

    /// The number of pairs of points whose edges in the base don't cancel.
    pub fn base_open(&self) -> u64
        ensures { result ≡ self.now.base_open }
    {
        self.base_open
    }

    /// How many triangles the patches have together.
    pub fn triangle_sum(&self) -> u64
        ensures { result ≡ triangles_in_all self.now.lists.index.fields }
    {
        self.triangle_sum
    }

    /// The greatest number of patches that lead from one node.
    pub fn greatest_degree(&self) -> usize
        ensures { IsGreatestDegree self.now.lists.index result }
    {
        self.greatest_degree
    }
}

mod degrees;
mod sums;

use degrees::greatest_degree_of;
use sums::triangle_sum_of;
