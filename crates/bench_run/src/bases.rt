//! The base of a mesh.

ghost use Rattle.std.specs.Prelude.{◌≡◌, ◌≤◌};
ghost use Rattle.bench_run.specs.BaseSizes.{base_part, base_sum};

use file_model::PatchField;
use patch_file::Index;

// How many triangles the patch adds to those of the root's patches.
fn part_of(field: PatchField, root: u32) -> u64
    ensures value { result ≡ base_part root field }
    ensures few { result ≤ 65535 }
{
    if field.tail == root {
        u64::from(field.triangles)
    } else {
        0
    }
}

/// How many triangles the patches have together that lead from the root.
pub fn base_triangles(index: &Index, root: u32) -> u64
    ensures { result ≡ base_sum root index.now.fields }
{
    let mut sum = 0;
    for patch in 0..index.patch_count() {
        sum += part_of(index.patch(patch), root);
    }
    sum
}
