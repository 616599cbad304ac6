//! How many triangles a patch file has.

ghost use Rattle.std.specs.Prelude.{◌≡◌};
ghost use Rattle.mesh_model.specs.Frames.{triangles_in_all};

use patch_file::Index;

/// How many triangles the patches have together.
pub fn triangle_sum_of(index: &Index) -> u64
    ensures { result ≡ triangles_in_all index.now.fields }
{
    let _count = index.patch_count();
    let mut sum = 0;
    for field in index.fields() {
        sum += u64::from(field.triangles);
    }
    sum
}
