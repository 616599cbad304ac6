//! Adding a body's border to the sums of the base.

ghost use Rattle.std.specs.Prelude.{◌+◌, ◌*◌, ◌≤◌, length, OnOk};
ghost use Rattle.file_model.specs.declared.limits.TheConstants.{MOST_IN_PATCH, MOST_PATCHES};
ghost use Rattle.body_edges.specs.Borders.{IsBorderOf};
ghost use Rattle.dag_check.specs.Added.{AddsToBase};

use body_edges::{Border, add_border};
use edge_chain::EdgeChain;
use grid_vertex::NoMemory;
use mesh_model::DagFault;
use patch_file::Body;

/// Adds the border of a body whose patch leads from a node to the sums of the base, where the node
/// is the root.
pub fn add_to_base(
    base: &mut EdgeChain,
    verdict: Result<u32, DagFault>,
    tail: u32,
    border: &Border,
    body: &Body,
) -> Result<(), NoMemory>
    requires room { base.old.count ≤ MOST_IN_PATCH * MOST_PATCHES }
    requires border { IsBorderOf border.now body.now.lists }
    ensures count { OnOk result (base.new.count ≤ base.old.count + length body.now.lists.corners) }
    ensures nets { OnOk result (AddsToBase verdict tail body.now.lists base.old base.new) }
{
    if let Ok(root) = verdict {
        if root == tail {
            return add_border(base, border, body);
        }
    }
    Ok(())
}
