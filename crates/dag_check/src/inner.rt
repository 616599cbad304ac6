//! Inner nodes and their patches.

ghost use Rattle.std.specs.Prelude.{◌≡◌, ℕ, ◌<◌, length, IfOk};
ghost use Rattle.file_model.specs.Lists.{IndexLists};
ghost use Rattle.mesh_model.specs.Accepted.{is_inner};
ghost use Rattle.mesh_graph.specs.Graphs.{IsGraphOf};
ghost use Rattle.dag_check.specs.NodeSums.{inner_patches};
ghost use Rattle.dag_check.specs.AllNodeSums.{AreNew};

use crate::node_sums::NodeSums;
use grid_vertex::NoMemory;
use mesh_graph::MeshGraph;
use patch_file::Index;
use std::alloc::Global;

/// Tells whether patches lead to the node and from it.
fn is_inner_node(graph: &MeshGraph, node: u32) -> bool
    requires incoming { node < length graph.now.incoming }
    requires outgoing { node < length graph.now.outgoing }
    ensures { (index : IndexLists) → IsGraphOf index graph.now
        → result ≡ is_inner index.fields node }
{
    !(graph.is_root(node) || graph.is_sink(node))
}

/// How many patches lead to the node and from it together, and 0 where it isn't inner.
fn patches_of(index: &Index, graph: &MeshGraph, node: u32) -> u32
    requires graph { IsGraphOf index.now graph.now }
    requires node { node < length index.now.nodes }
    ensures { result ≡ inner_patches index.now.fields node }
{
    let _count = index.patch_count();
    if !is_inner_node(graph, node) {
        return 0;
    }
    graph.incoming(node).len() as u32 + graph.outgoing(node).len() as u32
}

/// The nodes' sums, each of no triangle.
pub fn new_node_sums(
    alloc: Global,
    index: &Index,
    graph: &MeshGraph,
) -> Result<Vec<NodeSums>, NoMemory>
    requires { IsGraphOf index.now graph.now }
    ensures as_many { IfOk result (λ node_sums. length node_sums.items ≡ length index.now.nodes) }
    ensures new { IfOk result (λ node_sums. AreNew index.now.fields node_sums.items) }
{
    let mut node_sums = Vec::new(alloc);
    for node in 0..index.node_count() {
        let total = patches_of(index, graph, node);
        node_sums.push(NodeSums::new(alloc, total))?;
    }
    Ok(node_sums)
}
