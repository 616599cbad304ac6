//! How far a cut has grown.

ghost use Rattle.std.specs.Prelude.{◌≡◌, ◌<◌, ◌≤◌, ◌-◌, length, replicate, slice_index, slice_set, true, false, IfOk, All};
ghost use Rattle.std.specs.List.{sum_by};
ghost use Rattle.file_model.specs.declared.limits.TheConstants.{MOST_IN_PATCH, MOST_PATCHES};
ghost use Rattle.round_model.specs.Rounds.{has, has_parents, with_member, frame_size};
ghost use Rattle.cut_refiner.specs.GrowingCuts.{triangles_at, IsGrowingCut, IsGrowing, AreCounts};

use accepted_mesh::Mesh;
use file_model::PatchField;
use grid_vertex::NoMemory;
use std::alloc::Global;

/// A set of nodes, how many patches lead to each node from outside of it, and how many triangles lead
/// out of it.
#[derive(Drop)]
pub struct GrowingCut {
    pub in_cut: Vec<bool>,
    pub missing: Vec<u32>,
    pub size: u64,
}

/// How many triangles the patch has.
fn triangles_in(field: &PatchField) -> u64
    ensures value { result ≡ field.now.triangles }
    ensures few { result ≤ MOST_IN_PATCH }
{
    u64::from(field.triangles)
}

/// How many triangles the patches have together.
fn triangles_of(fields: &[PatchField], patches: &[u32]) -> u64
    requires patches { All (λ p. p < length fields.now) patches.now }
    requires few { length patches.now ≤ MOST_PATCHES }
    ensures { result ≡ sum_by (triangles_at fields.now) patches.now }
{
    let mut sum = 0;
    for patch in patches {
        sum += triangles_in(&fields[*patch as usize]);
    }
    sum
}

/// For each node how many patches lead to it.
fn incoming_counts(alloc: Global, mesh: &Mesh) -> Result<Vec<u32>, NoMemory>
    ensures { IfOk result (λ counts. AreCounts mesh.now.lists counts.items) }
{
    let nodes = mesh.index().node_count();
    let mut counts = Vec::with_capacity(alloc, nodes as usize)?;
    for node in 0..nodes {
        counts.push_reserved(mesh.incoming(node).len() as u32);
    }
    Ok(counts)
}

impl GrowingCut {
    /// The set of no nodes.
    pub fn empty(alloc: Global, mesh: &Mesh) -> Result<GrowingCut, NoMemory>
        ensures none { IfOk result
            (λ growing.
            growing.in_cut.items ≡ replicate (length mesh.now.lists.index.nodes) false) }
        ensures growing { IfOk result
            (λ growing.
            IsGrowingCut mesh.now.lists growing.in_cut.items growing.missing.items
            growing.size) }
    {
        let missing = incoming_counts(alloc, mesh)?;
        let in_cut = vec![in alloc; false; missing.len()]?;
        Ok(GrowingCut {
            in_cut,
            missing,
            size: 0,
        })
    }

    /// How many triangles lead out of the set with the node. Condition: the node isn't in the set, and
    /// its parents are.
    pub fn size_with(&self, mesh: &Mesh, node: u32) -> u64
        requires { IsGrowing mesh.now.lists self.now.in_cut.items self.now.missing.items
            self.now.size node }
        ensures { result
            ≡ frame_size (has (with_member self.now.in_cut.items node))
            mesh.now.lists.index.fields }
    {
        let fields = mesh.index().fields();
        let _most = mesh.triangle_sum();
        let into = triangles_of(fields, mesh.incoming(node));
        let out_of = triangles_of(fields, mesh.outgoing(node));
        self.size - into + out_of
    }
}
