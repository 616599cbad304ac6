//! The first fault of a graph, or its root.

ghost use Rattle.std.specs.Prelude.{◌≡◌, ℕ, ◌≤◌, length};
ghost use Rattle.file_model.specs.declared.limits.TheConstants.{MOST_NODES, MOST_PATCHES};
ghost use Rattle.mesh_model.specs.declared.sides.NodeSide.TheVariants.{Incoming, Outgoing};
ghost use Rattle.mesh_graph.specs.Chains.{HaveNodes};
ghost use Rattle.mesh_graph.specs.Adjacency.{IsAdjacency};
ghost use Rattle.mesh_graph.specs.Levels.{AreAllLevels};
ghost use Rattle.mesh_graph.specs.Graphs.{index_of, IsVerdict};
ghost use Rattle.mesh_graph.specs.Nesting.{AreNearGrid};

use crate::arcs::Adjacency;
use crate::levels::first_without;
use crate::nesting::{Nesting, first_unnested};
use crate::roots::find_root;
use file_model::{Node, PatchField};
use mesh_model::DagFault;

/// The root of a graph that is nested and has levels, or its first fault.
pub fn verdict_of(
    incoming: &Adjacency,
    outgoing: &Adjacency,
    levels: &[Option<u32>],
    nodes: &[Node],
    fields: &[PatchField],
) -> Result<u32, DagFault>
    requires incoming { IsAdjacency Incoming fields.now (length nodes.now) incoming.now }
    requires outgoing { IsAdjacency Outgoing fields.now (length nodes.now) outgoing.now }
    requires levels { AreAllLevels fields.now (length nodes.now) levels.now }
    requires tails { HaveNodes Outgoing (length nodes.now) fields.now }
    requires heads { HaveNodes Incoming (length nodes.now) fields.now }
    requires near { AreNearGrid nodes.now }
    requires node_count { length nodes.now ≤ MOST_NODES }
    requires patch_count { length fields.now ≤ MOST_PATCHES }
    ensures { (version : ℕ) → IsVerdict (index_of version nodes.now fields.now) result }
{
    let root = match find_root(incoming) {
        Ok(root) => root,
        Err(fault) => return Err(fault),
    };
    if let Some(node) = first_without(levels) {
        return Err(DagFault::Cycle(node));
    }
    if let Some(patch) = first_unnested(Nesting::Errors, outgoing, nodes, fields) {
        return Err(DagFault::ErrorNotNested(patch));
    }
    if let Some(patch) = first_unnested(Nesting::Balls, outgoing, nodes, fields) {
        return Err(DagFault::BallNotNested(patch));
    }
    Ok(root)
}
