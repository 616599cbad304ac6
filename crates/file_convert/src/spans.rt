//! Whether points lie near enough to one another for version 2.

ghost use Rattle.std.specs.Prelude.{◌≡◌, ◌≤◌, ◌&&◌, ◌-ℤ◌, length, map, nat_le, unsigned_abs, IsTrue, OnOk, IfOk, IfErr, MatchOption};
ghost use Rattle.std.specs.Arc.{arc_value};
ghost use Rattle.std.specs.Int.{int_min};
ghost use Rattle.std.specs.List.{fold};
ghost use Rattle.file_model.specs.declared.limits.TheConstants.{MOST_PATCHES};
ghost use Rattle.file_model.specs.Spelling.{origin_of};
ghost use Rattle.file_model.specs.Rules.{is_version, is_near_origin, is_narrow};
ghost use Rattle.patch_body.specs.Origins.{lower_of};
ghost use Rattle.file_convert.specs.Converted.{fits_version, AllFit, IsLeastWide};
ghost use Rattle.file_convert.specs.Held.{lists_of, RefusesWide};

use crate::bodies::points_of;
use crate::refusals::ConvertRefusal;
use grid_vertex::{NoMemory, Point};
use patch_file::Body;
use std::alloc::Global;
use std::sync::Arc;

/// The lesser of two coordinates.
fn lesser(a: i32, b: i32) -> i32
    ensures { result ≡ int_min a b }
{
    a.min(b)
}

/// The lesser coordinate of two points on each axis.
fn lower(p: Point, q: Point) -> Point
    ensures { result ≡ lower_of p q }
{
    Point {
        x: lesser(p.x, q.x),
        y: lesser(p.y, q.y),
        z: lesser(p.z, q.z),
    }
}

/// The least coordinates of a point and others.
fn lowest(first: Point, others: &[Point]) -> Point
    ensures { result ≡ fold lower_of first others.now }
{
    others
        .iter()
        .fold(first, |lowest, point| lower(lowest, *point))
}

/// The least coordinates of points.
#[tactic(auto, unfolding(file_model::specs::Spelling::origin_of))]
fn origin_of(points: &[Point]) -> Point
    ensures { result ≡ origin_of points.now }
{
    match points {
        [] => Point { x: 0, y: 0, z: 0 },
        [first, others @ ..] => lowest(*first, others),
    }
}

/// Whether a coordinate is at most 65,535 past the origin's.
fn is_offset(origin: i32, coordinate: i32) -> bool
    ensures { result ≡ nat_le (unsigned_abs (coordinate -ℤ origin)) 65535 }
{
    coordinate.abs_diff(origin) <= 65_535
}

/// Whether x and y are.
fn are_offsets(origin: Point, point: Point) -> bool
    ensures { result
        ≡ (nat_le (unsigned_abs (point.x -ℤ origin.x)) 65535
        && nat_le (unsigned_abs (point.y -ℤ origin.y)) 65535) }
{
    is_offset(origin.x, point.x) && is_offset(origin.y, point.y)
}

/// Whether a point is at most 65,535 past the origin on each axis.
fn is_near(origin: Point, point: Point) -> bool
    ensures { result ≡ is_near_origin origin point }
{
    are_offsets(origin, point) && is_offset(origin.z, point.z)
}

/// Whether version 2 can have these points.
fn is_narrow(points: &[Point]) -> bool
    ensures { result ≡ is_narrow 2 points.now }
{
    let origin = origin_of(points);
    points.iter().all(|point| is_near(origin, *point))
}

/// Whether the body fits version 2.
fn fits(alloc: Global, body: &Body) -> Result<bool, NoMemory>
    ensures { IfOk result (λ fits. fits ≡ fits_version 2 body.now.lists) }
{
    let points = points_of(alloc, body)?;
    Ok(is_narrow(&points))
}

/// The least of the bodies that doesn't fit version 2.
fn first_wide(alloc: Global, bodies: &[Arc<Body>]) -> Result<Option<u32>, NoMemory>
    requires { length bodies.now ≤ MOST_PATCHES }
    ensures { IfOk result (λ found. MatchOption found
        (AllFit 2 (lists_of (map arc_value bodies.now)))
        (IsLeastWide (lists_of (map arc_value bodies.now)))) }
{
    for (patch, body) in bodies.iter().enumerate() {
        if !fits(alloc, body)? {
            return Ok(Some(patch as u32));
        }
    }
    Ok(None)
}

/// Looks whether all bodies fit the version.
pub(crate) fn check_spans(
    alloc: Global,
    bodies: &[Arc<Body>],
    version: u16,
) -> Result<(), ConvertRefusal>
    requires version { IsTrue (is_version version) }
    requires few { length bodies.now ≤ MOST_PATCHES }
    ensures fit { OnOk result (AllFit version (lists_of (map arc_value bodies.now))) }
    ensures wide { IfErr result (RefusesWide version (lists_of (map arc_value bodies.now))) }
{
    if version != 2 {
        return Ok(());
    }
    match first_wide(alloc, bodies)? {
        Some(patch) => Err(ConvertRefusal::Wide(patch)),
        None => Ok(()),
    }
}
