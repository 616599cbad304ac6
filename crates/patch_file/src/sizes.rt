//! How many bytes bodies have, and where they begin.

ghost use Rattle.std.specs.Prelude.{◌≡◌, ◌≤◌, ◌<◌, ◌+◌, ◌*◌, ◌^◌, length, IfOk};
ghost use Rattle.file_model.specs.Lists.{body_size, bodies_size};
ghost use Rattle.file_model.specs.declared.limits.TheConstants.{MOST_PATCHES};
ghost use Rattle.patch_file.specs.Offsets.{HasOffsets};

use file_model::PatchField;
use grid_vertex::NoMemory;
use std::alloc::Global;

/// How many bytes the field's body has in this version.
#[tactic(auto, unfolding(file_model::specs::Lists::body_size))]
pub fn body_size(version: u16, field: &PatchField) -> u64
    ensures value { result ≡ body_size version field.now }
    ensures short { result ≤ 1179630 }
{
    let points = u64::from(field.points);
    let triangles = u64::from(field.triangles);
    if version == 2 {
        12 + 6 * points + 6 * triangles
    } else {
        12 * points + 6 * triangles
    }
}

/// Where each field's body begins, the first at `start`, and where the last ends.
pub fn offsets_of(
    alloc: Global,
    version: u16,
    start: u64,
    fields: &[PatchField],
) -> Result<(Vec<u64>, u64), NoMemory>
    requires count { length fields.now ≤ MOST_PATCHES }
    requires start { start ≤ 2 ^ 22 }
    ensures offsets { IfOk result (λ x. HasOffsets version start fields.now x.0.items) }
    ensures end { IfOk result (λ x. x.1 ≡ start + bodies_size version fields.now) }
    ensures short { IfOk result (λ x. x.1 ≤ 2 ^ 40) }
{
    let mut offsets = Vec::with_capacity(alloc, fields.len())?;
    let mut end = start;
    for field in fields {
        offsets.push(end)?;
        end += body_size(version, field);
    }
    Ok((offsets, end))
}
