//! How large a node's error appears from an eye.

ghost use Rattle.std.specs.Prelude.{◌≡◌, ◌<◌};
ghost use Rattle.grid_vertex.specs.Points.{IsNearGrid};
ghost use Rattle.round_model.specs.Scores.{distance_of, score_of};

use file_model::Node;
use grid_vertex::{Ball, Point, distance_squared, isqrt};

/// How far the eye is from the ball, in whole units, and at least 1. The coordinates of the eye and the
/// centre are in -2,097,152 to 2,097,152.
#[tactic(auto, unfolding(round_model::specs::Scores::distance_of))]
fn distance(eye: Point, ball: &Ball) -> u32
    requires eye { IsNearGrid eye }
    requires centre { IsNearGrid ball.now.centre }
    ensures value { result ≡ distance_of eye ball.now }
    ensures positive { 0 < result }
{
    let from_centre = isqrt(distance_squared(eye, ball.centre));
    from_centre.saturating_sub(ball.radius).max(1)
}

/// The node's error by the focal number over the distance from the eye, rounded down.
#[tactic(auto, unfolding(round_model::specs::Scores::score_of))]
pub fn score_of_node(eye: Point, focal: u32, node: &Node) -> u64
    requires eye { IsNearGrid eye }
    requires centre { IsNearGrid node.now.ball.centre }
    ensures { result ≡ score_of eye focal node.now }
{
    u64::from(node.error) * u64::from(focal) / u64::from(distance(eye, &node.ball))
}
