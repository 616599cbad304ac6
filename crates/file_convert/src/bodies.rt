//! A body in another version.

ghost use Rattle.std.specs.Prelude.{◌≡◌, length, map, IfOk, IsTrue};
ghost use Rattle.file_model.specs.Lists.{corners_of};
ghost use Rattle.file_model.specs.Rules.{is_version, is_body};
ghost use Rattle.patch_body.specs.Seen.{IsCount, lists_with};
ghost use Rattle.file_convert.specs.Converted.{fits_version};

use grid_vertex::{NoMemory, Point};
use patch_file::Body;
use std::alloc::Global;

/// The points of a body.
#[tactic(auto, using(crate::proofs::Taken::taken_more))]
pub(crate) fn points_of(alloc: Global, body: &Body) -> Result<Vec<Point>, NoMemory>
    ensures { IfOk result (λ points. points.items ≡ body.now.lists.points) }
{
    let mut points = Vec::new(alloc);
    for point in 0..body.point_count() {
        points.push(body.point(point))?;
    }
    Ok(points)
}

/// The places of the corners of a body's triangles.
#[tactic(auto, using(crate::proofs::Taken::corners_more))]
fn corners_of(alloc: Global, body: &Body) -> Result<Vec<[u16; 3]>, NoMemory>
    ensures { IfOk result (λ corners. map corners_of corners.items ≡ body.now.lists.corners) }
{
    let mut corners = Vec::new(alloc);
    for triangle in 0..body.triangle_count() {
        corners.push(body.corners(triangle))?;
    }
    Ok(corners)
}

/// The body of a version with these points and corners.
fn body_in(
    alloc: Global,
    version: u16,
    patch: u32,
    points: &[Point],
    corners: &[[u16; 3]],
) -> Result<Body, NoMemory>
    requires version { IsTrue (is_version version) }
    requires points { IsCount (length points.now) }
    requires triangles { IsCount (length corners.now) }
    requires rules { IsTrue (is_body version (lists_with points.now corners.now)) }
    ensures version { IfOk result (λ body. body.version ≡ version) }
    ensures lists { IfOk result (λ body. body.lists ≡ lists_with points.now corners.now) }
    ensures rules { IfOk result (λ body. IsTrue (is_body version body.lists)) }
{
    if version == 2 {
        Body::from_lists_2(alloc, patch, points, corners)
    } else {
        Body::from_lists(alloc, patch, points, corners)
    }
}

/// The body in a version that it fits.
pub(crate) fn converted(alloc: Global, body: &Body, version: u16) -> Result<Body, NoMemory>
    requires version { IsTrue (is_version version) }
    requires fits { IsTrue (fits_version version body.now.lists) }
    ensures version { IfOk result (λ made. made.version ≡ version) }
    ensures lists { IfOk result (λ made. made.lists ≡ body.now.lists) }
    ensures rules { IfOk result (λ made. IsTrue (is_body version made.lists)) }
{
    let patch = body.patch();
    let points = points_of(alloc, body)?;
    let corners = corners_of(alloc, body)?;
    body_in(alloc, version, patch, &points, &corners)
}
