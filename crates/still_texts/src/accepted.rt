//! The line of an accepted file.

ghost use Rattle.std.specs.Prelude.{◌≡◌, IfOk};
ghost use Rattle.file_model.specs.Lists.{FileLists};
ghost use Rattle.text_model.specs.AcceptedText.{IsAcceptedText, IsAcceptedLine};
ghost use Rattle.accepted_mesh.specs.MeshView.{IsMeshOf};

use accepted_mesh::Mesh;
use frame_writer::{Part, add_line};
use grid_vertex::NoMemory;
use std::alloc::Global;

/// The line that tells of an accepted file: how many nodes, patches, triangles and open edges it has.
#[tactic(auto, unfolding(text_model::specs::AcceptedText::accepted_line))]
pub fn accepted_text(alloc: Global, mesh: &Mesh) -> Result<Vec<u8>, NoMemory>
    ensures of_file { (file : FileLists) → IsMeshOf file mesh.now
        → IfOk result (λ text. IsAcceptedText file mesh.now.lists.root text.items) }
    ensures line { IfOk result (λ text. IsAcceptedLine text.items) }
{
    let counts = [
        Part::Word("nodes"),
        Part::Number(u64::from(mesh.index().node_count())),
        Part::Word("patches"),
        Part::Number(u64::from(mesh.index().patch_count())),
        Part::Word("triangles"),
        Part::Number(mesh.triangle_sum()),
        Part::Word("open"),
        Part::Number(mesh.base_open()),
    ];
    let mut text = Vec::new(alloc);
    add_line(alloc, "accepted", &counts, &mut text)?;
    Ok(text)
}
