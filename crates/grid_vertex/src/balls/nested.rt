//! When a ball lies in another.

ghost use Rattle.std.specs.Prelude.{◌≡◌};
ghost use Rattle.grid_vertex.specs.Points.{IsNearGrid};
ghost use Rattle.grid_vertex.specs.Balls.{is_ball_within};

use super::Ball;
use crate::points::distance_squared;

/// Tells whether `outer` contains `inner`: its radius isn't less, and the centres are no further
/// apart than the radii differ. The centres' coordinates are in -2,097,152 to 2,097,152.
#[tactic(auto, unfolding(crate::specs::Balls::is_ball_within))]
pub fn contains(outer: &Ball, inner: &Ball) -> bool
    requires outer { IsNearGrid outer.now.centre }
    requires inner { IsNearGrid inner.now.centre }
    ensures { result ≡ is_ball_within outer.now inner.now }
{
    if inner.radius > outer.radius {
        return false;
    }
    let slack = u64::from(outer.radius - inner.radius);
    distance_squared(outer.centre, inner.centre) <= slack * slack
}
