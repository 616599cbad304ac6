//! Adding the borders of bodies to a chain.

ghost use Rattle.std.specs.Prelude.{◌≡◌, ◌+◌, ◌*◌, ◌≤◌, List, ◌++◌, length, OnOk};
ghost use Rattle.grid_vertex.specs.declared.triangles.Triangle.{Triangle};
ghost use Rattle.file_model.specs.Lists.{triangles_of};
ghost use Rattle.edge_chain.specs.Chains.{IsNetOf};
ghost use Rattle.body_edges.specs.Borders.{IsBorderOf};

use crate::borders::Border;
use edge_chain::EdgeChain;
use grid_vertex::NoMemory;
use patch_body::Body;

/// Finds the border of a body, in place of the one before, and adds it as `add_border` does.
/// Condition: at most 4294967295 * 65536 triangles were added before.
pub fn add_body(chain: &mut EdgeChain, border: &mut Border, body: &Body) -> Result<(), NoMemory>
    requires { chain.old.count ≤ 4294967295 * 65536 }
    ensures count { OnOk result
        (chain.new.count ≡ chain.old.count + length body.now.lists.corners) }
    ensures few { OnOk result (chain.new.count ≤ chain.old.count + 4294967295) }
    ensures nets { OnOk result
        ((triangles : List Triangle) → IsNetOf triangles chain.old
        → IsNetOf (triangles ++ triangles_of body.now.lists) chain.new) }
{
    border.find(body)?;
    add_border(chain, border, body)
}

/// Adds the border of a body, which counts as all its triangles. On want of memory the chain is as before.
/// Condition: the border is the body's, and at most 4294967295 * 65536 triangles were added before.
pub fn add_border(chain: &mut EdgeChain, border: &Border, body: &Body) -> Result<(), NoMemory>
    requires border { IsBorderOf border.now body.now.lists }
    requires room { chain.old.count ≤ 4294967295 * 65536 }
    ensures count { OnOk result
        (chain.new.count ≡ chain.old.count + length body.now.lists.corners) }
    ensures few { OnOk result (chain.new.count ≤ chain.old.count + 4294967295) }
    ensures nets { OnOk result
        ((triangles : List Triangle) → IsNetOf triangles chain.old
        → IsNetOf (triangles ++ triangles_of body.now.lists) chain.new) }
{
    chain.add_edges(border.edges(), u64::from(body.triangle_count()))
}
