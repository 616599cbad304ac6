//! Where a point lies, and how far it is from another.

ghost use Rattle.std.specs.Prelude.{◌≡◌, ◌*◌, ◌≤◌};
ghost use Rattle.grid_vertex.specs.Points.{IsNearGrid, is_in_grid, is_within, gap, square, distance_squared_of};

use super::Point;

/// How far from 0 a coordinate of a point of the grid is at most.
pub const GRID: u32 = 1_048_576;

// Whether the coordinate is in the grid's range.
fn is_on_axis(coordinate: i32) -> bool
    ensures { result ≡ is_within GRID coordinate }
{
    coordinate.unsigned_abs() <= GRID
}

/// Tells whether each coordinate is in -1,048,576 to 1,048,576.
pub fn in_grid(point: Point) -> bool
    ensures { result ≡ is_in_grid point }
{
    is_on_axis(point.x) && is_on_axis(point.y) && is_on_axis(point.z)
}

// The square of how far apart two coordinates are.
fn axis_squared(a: i32, b: i32) -> u64
    requires { gap a b ≤ 4194304 }
    ensures value { result ≡ square (gap a b) }
    ensures bound { result ≤ 17592186044416 }
{
    let apart = u64::from(a.abs_diff(b));
    apart * apart
}

/// The square of the distance of two points whose coordinates are in -2,097,152 to 2,097,152.
#[tactic(auto, unfolding(crate::specs::Points::distance_squared_of))]
pub fn distance_squared(p: Point, q: Point) -> u64
    requires first { IsNearGrid p }
    requires second { IsNearGrid q }
    ensures { result ≡ distance_squared_of p q }
{
    axis_squared(p.x, q.x) + axis_squared(p.y, q.y) + axis_squared(p.z, q.z)
}
