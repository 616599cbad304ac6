//! Where a ray meets a triangle.

ghost use Rattle.std.specs.Prelude.{◌≡◌, ◌+◌, ◌≤◌, pos, ◌+ℤ◌, ◌*ℤ◌, unsigned_abs, is_some, MatchOption, IfSome};
ghost use Rattle.patch_body.specs.Seen.{IsInGrid};
ghost use Rattle.ray_pick.specs.Rays.{IsHitAt, Misses, IsSmall};
ghost use Rattle.ray_pick.specs.Bounds.{IsShort};
ghost use Rattle.ray_pick.specs.Meetings.{signed, is_ahead, is_inside, is_hit, is_met, above_of, below_of};

use crate::rays::Ray;
use crate::vectors::{Vector, determinant, vector_of, way};
use grid_vertex::Triangle;

// The number with the sign of another one.
#[tactic(auto, unfolding(crate::specs::Meetings::signed))]
fn signed(sign: i128, number: i128) -> i128
    requires { unsigned_abs number ≤ 442721857769029238784 }
    ensures value { result ≡ signed sign number }
    ensures bound { unsigned_abs result ≤ unsigned_abs number }
{
    if sign < 0 { -number } else { number }
}

// The sum of two weights.
fn sum(a: i128, b: i128) -> i128
    requires first { unsigned_abs a ≤ 442721857769029238784 }
    requires second { unsigned_abs b ≤ 442721857769029238784 }
    ensures { result ≡ a +ℤ b }
{
    a + b
}

// Whether no weight is below 0, of b, of c, and the rest of a.
fn is_inside(b: i128, c: i128, below: i128) -> bool
    requires first { unsigned_abs b ≤ 442721857769029238784 }
    requires second { unsigned_abs c ≤ 442721857769029238784 }
    ensures { result ≡ is_inside b c below }
{
    b >= 0 && c >= 0 && below >= sum(b, c)
}

// Whether the plane of a triangle with these numbers is crossed, and not behind the origin.
fn is_ahead(gain: i128, above: i128) -> bool
    ensures { result ≡ is_ahead gain above }
{
    gain != 0 && above >= 0
}

// Whether a triangle with these numbers is hit.
fn is_hit(gain: i128, b: i128, c: i128, above: i128, below: i128) -> bool
    requires first { unsigned_abs b ≤ 442721857769029238784 }
    requires second { unsigned_abs c ≤ 442721857769029238784 }
    ensures { result ≡ is_hit gain b c above below }
{
    is_ahead(gain, above) && is_inside(b, c, below)
}

// Where a ray meets a triangle, by the ways from its corner a to b, to c, to the ray's origin, and the ray's
// direction.
fn meet(second: Vector, third: Vector, start: Vector, direction: Vector) -> Option<(i128, i128)>
    requires second { IsShort 4194304 second }
    requires third { IsShort 4194304 third }
    requires start { IsShort 4194304 start }
    requires direction { IsShort 1024 direction }
    ensures met { is_some result ≡ is_met second third start direction }
    ensures above { IfSome result (λ at. at.0 ≡ above_of second third start direction) }
    ensures below { IfSome result (λ at. at.1 ≡ below_of second third direction) }
    ensures small { IfSome result (λ at. IsSmall at.0 at.1) }
{
    let gain = determinant(second, third, direction);
    let b = signed(gain, determinant(start, third, direction));
    let c = signed(gain, determinant(second, start, direction));
    let above = signed(gain, determinant(third, second, start));
    let below = signed(gain, gain);
    if is_hit(gain, b, c, above, below) {
        Some((above, below))
    } else {
        None
    }
}

/// Where the ray meets the triangle: the numbers above and below of the fraction of its direction past its
/// origin. None exactly where the triangle isn't hit. Condition: its corners are in the grid.
pub fn hit_triangle(ray: &Ray, triangle: Triangle) -> Option<(i128, i128)>
    requires { IsInGrid triangle }
    ensures hit { MatchOption result (Misses ray.now triangle)
        (λ at. IsHitAt ray.now triangle at.0 at.1) }
    ensures small { IfSome result (λ at. IsSmall at.0 at.1) }
{
    let second = way(triangle.a, triangle.b);
    let third = way(triangle.a, triangle.c);
    let start = way(triangle.a, ray.origin);
    meet(second, third, start, vector_of(ray.direction))
}
