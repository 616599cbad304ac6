//! The side of a node on which a patch is.

ghost use Rattle.std.specs.Prelude.{◌≡◌};
ghost use Rattle.mesh_model.specs.Sides.{node_on};

use file_model::PatchField;
use mesh_model::NodeSide;

/// The node on whose side the patch is.
pub fn node_of(side: NodeSide, field: &PatchField) -> u32
    ensures { result ≡ node_on side field.now }
{
    match side {
        NodeSide::Incoming => field.head,
        NodeSide::Outgoing => field.tail,
    }
}
