//! The scores of all nodes.

ghost use Rattle.std.specs.Prelude.{◌≡◌, IfOk};

use crate::wants::Want;
use accepted_mesh::Mesh;
use grid_vertex::NoMemory;
use std::alloc::Global;

/// Each node's score.
pub fn scores_of<W: Want>(alloc: Global, mesh: &Mesh, want: &W) -> Result<Vec<u64>, NoMemory>
    ensures { IfOk result (λ scores. scores.items ≡ W.scores want.now mesh.now.lists) }
{
    let nodes = mesh.index().node_count();
    let mut scores = Vec::with_capacity(alloc, nodes as usize)?;
    for node in 0..nodes {
        scores.push_reserved(want.score(mesh, node));
    }
    Ok(scores)
}
