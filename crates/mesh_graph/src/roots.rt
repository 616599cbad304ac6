//! The root of a graph.

ghost use Rattle.std.specs.Prelude.{◌≡◌, ◌≤◌, length};
ghost use Rattle.file_model.specs.declared.limits.TheConstants.{MOST_NODES};
ghost use Rattle.mesh_model.specs.Graph.{nodes_where, only_root};
ghost use Rattle.mesh_graph.specs.Adjacency.{is_bare_at};

use crate::arcs::Adjacency;
use mesh_model::DagFault;

/// The one node without incoming patches, or the fault where there is none or are several.
pub fn find_root(incoming: &Adjacency) -> Result<u32, DagFault>
    requires { length incoming.now ≤ MOST_NODES }
    ensures { result ≡ only_root (nodes_where (length incoming.now) (is_bare_at incoming.now)) }
{
    let mut found = None;
    for node in 0..incoming.node_count() as u32 {
        if incoming.is_bare(node) {
            if let Some(first) = found {
                return Err(DagFault::TwoRoots(first, node));
            }
            found = Some(node);
        }
    }
    found.ok_or(DagFault::NoRoot)
}
