//! What a tier takes from the index that it is made for.

ghost use Rattle.std.specs.Prelude.{◌≡◌, None, length, replicate, IfOk};
ghost use Rattle.tier_model.specs.Tiers.{sizes_of, base_marks};
ghost use Rattle.tier_budget.specs.Heads.{AreHeads, bodies_in};

use file_model::PatchField;
use grid_vertex::NoMemory;
use patch_file::{Body, Index};
use std::alloc::Global;
use std::sync::Arc;

/// The size of each patch's body.
pub fn body_sizes(alloc: Global, index: &Index) -> Result<Vec<u64>, NoMemory>
    ensures { IfOk result (λ sizes. sizes.items ≡ sizes_of index.now) }
{
    let mut sizes = Vec::new(alloc);
    for patch in 0..index.patch_count() {
        sizes.push(index.body_size(patch))?;
    }
    Ok(sizes)
}

/// Whether a patch leads to each node.
fn node_marks(alloc: Global, index: &Index) -> Result<Vec<bool>, NoMemory>
    ensures { IfOk result (λ marks. AreHeads index.now marks.items) }
{
    let mut marks = vec![in alloc; false; index.node_count() as usize]?;
    for field in index.fields() {
        marks[field.head as usize] = true;
    }
    Ok(marks)
}

/// Whether each patch leads from a root.
pub fn base_patches(alloc: Global, index: &Index) -> Result<Vec<bool>, NoMemory>
    ensures { IfOk result (λ base. base.items ≡ base_marks index.now.fields) }
{
    let has_parent = node_marks(alloc, index)?;
    let mut base = Vec::with_capacity(alloc, index.patch_count() as usize)?;
    for field in index.fields() {
        base.push(!has_parent[field.tail as usize])?;
    }
    Ok(base)
}

/// No bodies, for so many patches.
pub fn no_bodies(alloc: Global, patches: u32) -> Result<Vec<Option<Arc<Body>>>, NoMemory>
    ensures { IfOk result (λ bodies. bodies_in bodies.items ≡ replicate patches None) }
{
    let mut bodies = Vec::new(alloc);
    for _patch in 0..patches {
        bodies.push(None)?;
    }
    Ok(bodies)
}
