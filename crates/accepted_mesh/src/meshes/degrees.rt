//! How many patches lead from a node.

ghost use Rattle.mesh_graph.specs.Graphs.{IsGraphOf};
ghost use Rattle.accepted_mesh.specs.MeshView.{IsGreatestDegree};

use mesh_graph::MeshGraph;
use patch_file::Index;

/// The greatest number of patches that lead from one node. Condition: the graph is the index's.
pub fn greatest_degree_of(index: &Index, graph: &MeshGraph) -> usize
    requires { IsGraphOf index.now graph.now }
    ensures { IsGreatestDegree index.now result }
{
    let mut greatest = 0;
    for node in 0..index.node_count() {
        greatest = graph.outgoing(node).len().max(greatest);
    }
    greatest
}
