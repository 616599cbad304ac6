//! Vectors, and the volumes that three of them span.

ghost use Rattle.std.specs.Prelude.{◌≡◌, ◌+◌, ◌*◌, ◌≤◌, ◌-ℤ◌, ◌+ℤ◌, ◌*ℤ◌, unsigned_abs};
ghost use Rattle.ray_pick.specs.Rays.{way, vector_of, determinant};
ghost use Rattle.ray_pick.specs.Bounds.{IsShort, IsNear};
ghost use Rattle.ray_pick.specs.Meetings.{size_of};

use grid_vertex::Point;

/// A way from one point to another.
#[derive(Clone, Copy)]
pub(crate) struct Vector {
    pub x: i64,
    pub y: i64,
    pub z: i64,
}

// The way from one coordinate to another.
fn axis_way(from: i32, to: i32) -> i64
    requires from { unsigned_abs from ≤ 2097152 }
    requires to { unsigned_abs to ≤ 2097152 }
    ensures value { result ≡ to -ℤ from }
    ensures bound { unsigned_abs result ≤ 4194304 }
{
    i64::from(to) - i64::from(from)
}

/// The way from one point to another.
pub(crate) fn way(from: Point, to: Point) -> Vector
    requires from { IsNear from }
    requires to { IsNear to }
    ensures value { result ≡ way from to }
    ensures bound { IsShort 4194304 result }
{
    Vector {
        x: axis_way(from.x, to.x),
        y: axis_way(from.y, to.y),
        z: axis_way(from.z, to.z),
    }
}

/// The vector with the point's coordinates.
pub(crate) fn vector_of(point: Point) -> Vector
    ensures { result ≡ vector_of point }
{
    Vector {
        x: i64::from(point.x),
        y: i64::from(point.y),
        z: i64::from(point.z),
    }
}

// The product of two coordinates.
fn product(a: i64, b: i64) -> i64
    requires first { unsigned_abs a ≤ 4194304 }
    requires second { unsigned_abs b ≤ 4194304 }
    ensures value { result ≡ a *ℤ b }
    ensures bound { unsigned_abs result ≤ 17592186044416 }
{
    a * b
}

// The difference of two products.
fn difference(a: i64, b: i64) -> i64
    requires first { unsigned_abs a ≤ 17592186044416 }
    requires second { unsigned_abs b ≤ 17592186044416 }
    ensures value { result ≡ a -ℤ b }
    ensures bound { unsigned_abs result ≤ 35184372088832 }
{
    a - b
}

// ad - bc
fn minor(a: i64, b: i64, c: i64, d: i64) -> i64
    requires a { unsigned_abs a ≤ 4194304 }
    requires b { unsigned_abs b ≤ 4194304 }
    requires c { unsigned_abs c ≤ 4194304 }
    requires d { unsigned_abs d ≤ 4194304 }
    ensures value { result ≡ a *ℤ d -ℤ b *ℤ c }
    ensures bound { unsigned_abs result ≤ 35184372088832 }
{
    difference(product(a, d), product(b, c))
}

// The product of a minor and a coordinate.
fn wide_product(minor: i64, coordinate: i64) -> i128
    requires minor { unsigned_abs minor ≤ 35184372088832 }
    requires coordinate { unsigned_abs coordinate ≤ 4194304 }
    ensures value { result ≡ minor *ℤ coordinate }
    ensures bound { unsigned_abs result ≤ 35184372088832 * unsigned_abs coordinate }
{
    i128::from(minor) * i128::from(coordinate)
}

// The sum of two numbers that are far from the end of the type.
fn sum(a: i128, b: i128) -> i128
    requires first { unsigned_abs a ≤ 442721857769029238784 }
    requires second { unsigned_abs b ≤ 442721857769029238784 }
    ensures value { result ≡ a +ℤ b }
    ensures bound { unsigned_abs result ≤ unsigned_abs a + unsigned_abs b }
{
    a + b
}

/// The product of r and the cross product of p and q.
#[tactic(auto, unfolding(crate::specs::Rays::determinant))]
pub(crate) fn determinant(p: Vector, q: Vector, r: Vector) -> i128
    requires first { IsShort 4194304 p }
    requires second { IsShort 4194304 q }
    requires third { IsShort 4194304 r }
    ensures value { result ≡ determinant p q r }
    ensures bound { unsigned_abs result ≤ 35184372088832 * size_of r }
{
    let flat = sum(
        wide_product(minor(p.y, p.z, q.y, q.z), r.x),
        wide_product(minor(p.z, p.x, q.z, q.x), r.y),
    );
    sum(flat, wide_product(minor(p.x, p.y, q.x, q.y), r.z))
}
