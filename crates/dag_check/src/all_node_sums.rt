//! What is kept of all nodes.

ghost use Rattle.std.specs.Prelude.{◌≡◌, ◌<◌, ◌≤◌, length, IfOk, OnOk};
ghost use Rattle.body_edges.specs.Borders.{IsBorderOf};
ghost use Rattle.mesh_graph.specs.Graphs.{IsGraphOf};
ghost use Rattle.dag_check.specs.AllNodeSums.{all_sums_of, pairs_in_all, IsNew, IsSummed, IsReady, TakesAt};

use crate::borders::{BorderDifference, least_border};
use crate::inner::new_node_sums;
use crate::node_sums::NodeSums;
use body_edges::Border;
use grid_vertex::NoMemory;
use mesh_graph::MeshGraph;
use mesh_model::NodeSide;
use patch_file::{Body, Index};
use std::alloc::Global;

/// The nodes' sums, with what they come to, and the least node whose sums differed.
#[derive(Drop)]
pub struct AllNodeSums {
    pub node_sums: Vec<NodeSums>,
    pub open_nodes: u32,
    pub border_found: Option<BorderDifference>,
}

impl AllNodeSums {
    /// Adds a body on one side of a node.
    pub fn take(
        &mut self,
        alloc: Global,
        side: NodeSide,
        node: u32,
        border: &Border,
        body: &Body,
    ) -> Result<(), NoMemory>
        requires border { IsBorderOf border.now body.now.lists }
        requires node { node < length self.old.node_sums.items }
        requires sums { IsSummed (all_sums_of self.old) }
        requires left { IsReady node self.old.node_sums.items }
        ensures { OnOk result
            (TakesAt side node body.now.lists (all_sums_of self.old) (all_sums_of self.new)) }
    {
        let sums_at = &mut self.node_sums[node as usize];
        let open = sums_at.open_nodes();
        let difference = sums_at.take(alloc, side, border, body)?;
        let open_after = sums_at.open_nodes();
        self.open_nodes = self.open_nodes - open + open_after;
        self.border_found = least_border(self.border_found, node, difference);
        Ok(())
    }

    /// How many pairs the nodes' sums keep. It takes time that grows with the square of a sum's pairs.
    pub fn kept_pairs(&self) -> u64
        requires { IsSummed (all_sums_of self.now) }
        ensures { result ≡ pairs_in_all self.now.node_sums.items }
    {
        let mut kept = 0;
        for node_sums in &self.node_sums {
            kept += node_sums.kept_pairs();
        }
        kept
    }
}

/// Nothing was added to any node.
pub fn empty_all_sums(
    alloc: Global,
    index: &Index,
    graph: &MeshGraph,
) -> Result<AllNodeSums, NoMemory>
    requires { IsGraphOf index.now graph.now }
    ensures { IfOk result (λ all_sums. IsNew index.now (all_sums_of all_sums)) }
{
    let node_sums = new_node_sums(alloc, index, graph)?;
    Ok(AllNodeSums {
        node_sums,
        open_nodes: 0,
        border_found: None,
    })
}
