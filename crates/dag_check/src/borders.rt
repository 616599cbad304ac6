//! Nodes whose two sums differ.

ghost use Rattle.std.specs.Prelude.{◌≡◌};
ghost use Rattle.dag_check.specs.Borders.{lesser_border, border_of};

use edge_chain::Difference;
use mesh_model::DagFault;

/// A node whose sums differ, and where they differ first.
#[derive(Clone, Copy)]
pub struct BorderDifference {
    pub node: u32,
    pub difference: Difference,
}

/// The border difference of the lesser node, of the one that was found and of the one at a node whose sums were
/// compared.
pub fn least_border(
    found: Option<BorderDifference>,
    node: u32,
    difference: Option<Difference>,
) -> Option<BorderDifference>
    ensures { result ≡ lesser_border found node difference }
{
    match (found, difference) {
        (_, None) => found,
        (Some(border_found), Some(_)) if border_found.node < node => found,
        (_, Some(difference)) => Some(BorderDifference { node, difference }),
    }
}

/// The fault of the border difference, where there is one.
pub fn border(found: Option<BorderDifference>) -> Result<(), DagFault>
    ensures { result ≡ border_of found }
{
    match found {
        None => Ok(()),
        Some(border_found) => Err(DagFault::Border(
            border_found.node,
            border_found.difference.a,
            border_found.difference.b,
            border_found.difference.here,
            border_found.difference.there,
        )),
    }
}
