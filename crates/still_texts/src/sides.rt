//! On which side of a plane each node lies.

ghost use Rattle.std.specs.Prelude.{◌≡◌, OnOk, IfOk};
ghost use Rattle.file_model.specs.Lists.{FileLists};
ghost use Rattle.text_model.specs.Lines.{Adds};
ghost use Rattle.accepted_mesh.specs.MeshView.{IsMeshOf};
ghost use Rattle.view_planes.specs.HalfSpaces.{side_of};
ghost use Rattle.still_texts.specs.Sides.{side_word, side_line, IsSidesText, IsSidesLines};

use accepted_mesh::Mesh;
use frame_writer::{Part, add_line};
use grid_vertex::NoMemory;
use std::alloc::Global;
use view_planes::{HalfSpace, Side};

// The side as it stands in a line.
fn word_of_side(side: Side) -> &'static str
    ensures { result.now ≡ side_word side }
{
    match side {
        Side::Front => "front",
        Side::Across => "across",
        Side::Behind => "behind",
    }
}

// Appends the line of the node.
#[tactic(auto, unfolding(crate::specs::Sides::side_line))]
fn add_side(alloc: Global, node: u32, side: Side, text: &mut Vec<u8>) -> Result<(), NoMemory>
    ensures { OnOk result (Adds text.old.items text.new.items (side_line node side)) }
{
    let parts = [
        Part::Number(u64::from(node)),
        Part::Word(word_of_side(side)),
    ];
    add_line(alloc, "node", &parts, text)
}

/// A line for each node in order, which tells on which side of the plane its ball lies.
pub fn sides_text(alloc: Global, mesh: &Mesh, plane: &HalfSpace) -> Result<Vec<u8>, NoMemory>
    ensures of_file { (file : FileLists) → IsMeshOf file mesh.now
        → IfOk result (λ text. IsSidesText plane.now file text.items) }
    ensures lines { IfOk result (λ text. IsSidesLines text.items) }
{
    let mut text = Vec::new(alloc);
    for node in 0..mesh.index().node_count() {
        let ball = mesh.index().node(node).ball;
        add_side(alloc, node, plane.side(&ball), &mut text)?;
    }
    Ok(text)
}
