//! Half-spaces, and on which side of one a ball lies.

ghost use Rattle.std.specs.Prelude.{◌≡◌, ◌+◌, ◌≤◌, ◌+ℤ◌, ◌-ℤ◌, ◌*ℤ◌, unsigned_abs, IsTrue};
ghost use Rattle.grid_vertex.specs.Points.{is_within, is_point_within, is_in_grid, square};
ghost use Rattle.view_planes.specs.HalfSpaces.{normal_squared, half_space_of, dot, offset_of, reach_squared, is_below, is_above, is_behind, side_at, side_of};

use grid_vertex::{Ball, Point};
use std::marker::Model;

/// How far from 0 a coordinate of a normal is at most.
pub const NORMAL_REACH: u32 = 1_024;

/// How far from 0 a level is at most.
pub const LEVEL_REACH: u64 = 8_589_934_592;

/// The points p with `normal * p >= level`. Its boundary is a plane.
#[derive(Clone, Copy, Debug, PartialEq, Eq)]
pub struct HalfSpace {
    normal: Point,
    level: i64,
}

impl Model for HalfSpace {
    ghost use Rattle.std.specs.Prelude.{IsTrue};
    ghost use Rattle.view_planes.specs.HalfSpaces.{HalfSpaceSeen, is_half_space};

    ghost Value = { HalfSpaceSeen };

    ghost view = { λ h. record { normal = h.normal; level = h.level } };

    ghost invariant = { λ h. IsTrue (is_half_space h.normal h.level) };

    ghost inverse = { λ h. record { normal = h.normal; level = h.level } };
}

// What a list of half-spaces has in its free places.
impl Default for HalfSpace {
    fn default() -> HalfSpace {
        HalfSpace {
            normal: Point { x: 1, y: 0, z: 0 },
            level: 0,
        }
    }
}

/// Where a ball lies: wholly in a half-space, across its plane, or wholly outside.
#[derive(Clone, Copy, Debug, PartialEq, Eq)]
pub enum Side {
    Front,
    Across,
    Behind,
}

// Whether the coordinate is in a normal's range.
fn is_in_reach(coordinate: i32) -> bool
    ensures { result ≡ is_within NORMAL_REACH coordinate }
{
    coordinate.unsigned_abs() <= NORMAL_REACH
}

// Whether each coordinate is in a normal's range.
fn is_normal(point: Point) -> bool
    ensures { result ≡ is_point_within NORMAL_REACH point }
{
    is_in_reach(point.x) && is_in_reach(point.y) && is_in_reach(point.z)
}

// Whether the level is in its range.
fn is_level(level: i64) -> bool
    ensures { result ≡ is_within LEVEL_REACH level }
{
    level.unsigned_abs() <= LEVEL_REACH
}

// The square of a coordinate of a normal.
fn coordinate_squared(coordinate: i32) -> u64
    requires { unsigned_abs coordinate ≤ 1024 }
    ensures value { result ≡ square (unsigned_abs coordinate) }
    ensures bound { result ≤ 1048576 }
{
    let size = u64::from(coordinate.unsigned_abs());
    size * size
}

// The square of a normal's length.
fn length_squared(normal: Point) -> u64
    requires { IsTrue (is_point_within NORMAL_REACH normal) }
    ensures value { result ≡ normal_squared normal }
    ensures bound { result ≤ 3145728 }
{
    coordinate_squared(normal.x) + coordinate_squared(normal.y) + coordinate_squared(normal.z)
}

// The product of a coordinate of a normal and one of a point.
fn axis_product(n: i32, x: i32) -> i64
    requires normal { unsigned_abs n ≤ 1024 }
    requires point { unsigned_abs x ≤ 1048576 }
    ensures value { result ≡ n *ℤ x }
    ensures bound { unsigned_abs result ≤ 1073741824 }
{
    i64::from(n) * i64::from(x)
}

// The sum of two numbers that are far from the end of the type.
fn sum(a: i64, b: i64) -> i64
    requires first { unsigned_abs a ≤ 8589934592 }
    requires second { unsigned_abs b ≤ 8589934592 }
    ensures value { result ≡ a +ℤ b }
    ensures bound { unsigned_abs result ≤ unsigned_abs a + unsigned_abs b }
{
    a + b
}

// The first number without the second; both are far from the end of the type.
fn difference(a: i64, b: i64) -> i64
    requires first { unsigned_abs a ≤ 8589934592 }
    requires second { unsigned_abs b ≤ 8589934592 }
    ensures value { result ≡ a -ℤ b }
    ensures bound { unsigned_abs result ≤ unsigned_abs a + unsigned_abs b }
{
    a - b
}

// The product of a normal and a point of the grid.
fn dot_product(normal: Point, point: Point) -> i64
    requires normal { IsTrue (is_point_within NORMAL_REACH normal) }
    requires point { IsTrue (is_in_grid point) }
    ensures value { result ≡ dot normal point }
    ensures bound { unsigned_abs result ≤ 3221225472 }
{
    let flat = sum(
        axis_product(normal.x, point.x),
        axis_product(normal.y, point.y),
    );
    sum(flat, axis_product(normal.z, point.z))
}

// The square of the number.
fn square_of(n: u64) -> u128
    requires { n ≤ 17179869184 }
    ensures { result ≡ square n }
{
    u128::from(n) * u128::from(n)
}

// Whether a ball with a centre of this offset is outside, where the square of its reach is this one.
fn is_below(offset: i64, reach_squared: u128) -> bool
    requires { unsigned_abs offset ≤ 17179869184 }
    ensures { result ≡ is_below offset reach_squared }
{
    offset < 0 && square_of(offset.unsigned_abs()) > reach_squared
}

// Whether such a ball is inside.
fn is_above(offset: i64, reach_squared: u128) -> bool
    requires { unsigned_abs offset ≤ 17179869184 }
    ensures { result ≡ is_above offset reach_squared }
{
    offset >= 0 && square_of(offset.unsigned_abs()) >= reach_squared
}

// On which side such a ball lies.
fn side_by(offset: i64, reach_squared: u128) -> Side
    requires { unsigned_abs offset ≤ 17179869184 }
    ensures { result ≡ side_at offset reach_squared }
{
    if is_below(offset, reach_squared) {
        return Side::Behind;
    }
    if is_above(offset, reach_squared) {
        return Side::Front;
    }
    Side::Across
}

impl HalfSpace {
    /// The points (x, y, z) with `ax + by + cz >= d`.
    ///
    /// None exactly where a number is out of its range or a, b and c are all 0: a, b and c are in -1,024 to
    /// 1,024, d in -8,589,934,592 to 8,589,934,592.
    pub fn new(a: i32, b: i32, c: i32, d: i64) -> Option<HalfSpace>
        ensures { result ≡ half_space_of (record { x = a; y = b; z = c }) d }
    {
        let normal = Point { x: a, y: b, z: c };
        if !is_normal(normal) || !is_level(d) {
            return None;
        }
        if length_squared(normal) == 0 {
            return None;
        }
        Some(HalfSpace { normal, level: d })
    }

    // How far in front of the plane the point is, in units of 1 / |normal|.
    #[tactic(auto, unfolding(crate::specs::HalfSpaces::offset_of))]
    fn offset(&self, point: Point) -> i64
        requires { IsTrue (is_in_grid point) }
        ensures value { result ≡ offset_of self.now point }
        ensures bound { unsigned_abs result ≤ 17179869184 }
    {
        difference(dot_product(self.normal, point), self.level)
    }

    // The square of radius * |normal|.
    #[tactic(auto, unfolding(crate::specs::HalfSpaces::reach_squared))]
    fn reach_squared(&self, radius: u32) -> u128
        requires { radius ≤ 4194304 }
        ensures { result ≡ reach_squared self.now radius }
    {
        square_of(u64::from(radius)) * u128::from(length_squared(self.normal))
    }

    /// On which side the ball lies. Condition: its centre is in the grid, and its radius at most 4,194,304.
    pub fn side(&self, ball: &Ball) -> Side
        requires centre { IsTrue (is_in_grid ball.now.centre) }
        requires radius { ball.now.radius ≤ 4194304 }
        ensures { result ≡ side_of self.now ball.now }
    {
        side_by(self.offset(ball.centre), self.reach_squared(ball.radius))
    }

    /// Tells whether the ball lies behind. Condition: its centre is in the grid, and its radius at most
    /// 4,194,304.
    #[tactic(auto, unfolding(crate::specs::HalfSpaces::is_behind))]
    pub fn is_behind(&self, ball: &Ball) -> bool
        requires centre { IsTrue (is_in_grid ball.now.centre) }
        requires radius { ball.now.radius ≤ 4194304 }
        ensures { result ≡ is_behind self.now ball.now }
    {
        is_below(self.offset(ball.centre), self.reach_squared(ball.radius))
    }
}
