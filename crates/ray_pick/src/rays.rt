//! Rays.

ghost use Rattle.std.specs.Prelude.{◌≡◌};
ghost use Rattle.grid_vertex.specs.Points.{is_within, is_point_within};
ghost use Rattle.ray_pick.specs.Rays.{is_nought, ray_of};

use grid_vertex::Point;
use std::marker::Model;

/// How far from 0 a coordinate of an origin is at most.
pub const ORIGIN_REACH: u32 = 2_097_152;

/// How far from 0 a coordinate of a direction is at most.
pub const DIRECTION_REACH: u32 = 1_024;

/// A half-line from an origin on in a direction.
#[derive(Clone, Copy, Debug, PartialEq, Eq)]
pub struct Ray {
    pub(crate) origin: Point,
    pub(crate) direction: Point,
}

impl Model for Ray {
    ghost use Rattle.std.specs.Prelude.{IsTrue};
    ghost use Rattle.ray_pick.specs.Rays.{RaySeen, is_ray};

    ghost Value = { RaySeen };

    ghost view = { λ r. record { origin = r.origin; direction = r.direction } };

    ghost invariant = { λ r. IsTrue (is_ray r.origin r.direction) };

    ghost inverse = { λ r. record { origin = r.origin; direction = r.direction } };
}

// Whether each coordinate is in an origin's range.
fn is_near(point: Point) -> bool
    ensures { result ≡ is_point_within ORIGIN_REACH point }
{
    is_on_axis(ORIGIN_REACH, point.x)
        && is_on_axis(ORIGIN_REACH, point.y)
        && is_on_axis(ORIGIN_REACH, point.z)
}

// Whether each coordinate is in a direction's range.
fn is_short(point: Point) -> bool
    ensures { result ≡ is_point_within DIRECTION_REACH point }
{
    is_on_axis(DIRECTION_REACH, point.x)
        && is_on_axis(DIRECTION_REACH, point.y)
        && is_on_axis(DIRECTION_REACH, point.z)
}

// Whether the coordinate is in -limit to limit.
fn is_on_axis(limit: u32, coordinate: i32) -> bool
    ensures { result ≡ is_within limit coordinate }
{
    coordinate.unsigned_abs() <= limit
}

// Whether each coordinate is 0.
fn is_nought(point: Point) -> bool
    ensures { result ≡ is_nought point }
{
    point.x == 0 && point.y == 0 && point.z == 0
}

impl Ray {
    /// The ray from a point on in a direction.
    ///
    /// None exactly where a number is out of its range or the direction is 0: the origin's coordinates are in
    /// -2,097,152 to 2,097,152, the direction's in -1,024 to 1,024.
    pub fn new(origin: Point, direction: Point) -> Option<Ray>
        ensures { result ≡ ray_of origin direction }
    {
        if !is_near(origin) || !is_short(direction) {
            return None;
        }
        if is_nought(direction) {
            return None;
        }
        Some(Ray { origin, direction })
    }
}
