//! Views: from where a mesh is seen, and how closely.

ghost use Rattle.std.specs.Prelude.{◌≡◌};
ghost use Rattle.grid_vertex.specs.Points.{is_within, is_point_within, IsNearGrid};
ghost use Rattle.file_model.specs.Rules.{is_between};
ghost use Rattle.round_model.specs.Views.{is_view, view_of};

use crate::limits::{EYE_REACH, GREATEST_FOCAL, GREATEST_THRESHOLD};
use grid_vertex::Point;
use std::marker::Model;

/// An eye, a focal number, a threshold and a limit, each in its range.
#[derive(Clone, Copy, Debug, PartialEq, Eq)]
pub struct View {
    eye: Point,
    focal: u32,
    threshold: u32,
    limit: u32,
}

impl Model for View {
    ghost use Rattle.std.specs.Prelude.{IsTrue};
    ghost use Rattle.round_model.specs.Views.{ViewSeen, is_view};

    ghost Value = { ViewSeen };

    ghost view = { λ v.
        record { eye = v.eye; focal = v.focal; threshold = v.threshold; limit = v.limit } };

    ghost invariant = { λ v. IsTrue (is_view v.eye v.focal v.threshold) };

    ghost inverse = { λ v.
        record { eye = v.eye; focal = v.focal; threshold = v.threshold; limit = v.limit } };
}

// Whether the coordinate is in an eye's range.
fn is_in_reach(coordinate: i32) -> bool
    ensures { result ≡ is_within EYE_REACH coordinate }
{
    coordinate.unsigned_abs() <= EYE_REACH
}

// Whether each coordinate is in an eye's range.
fn is_eye(point: Point) -> bool
    ensures { result ≡ is_point_within EYE_REACH point }
{
    is_in_reach(point.x) && is_in_reach(point.y) && is_in_reach(point.z)
}

// Whether the number is in 1 to the greatest one.
fn is_in_range(number: u32, greatest: u32) -> bool
    ensures { result ≡ is_between 1 greatest number }
{
    1 <= number && number <= greatest
}

// Whether each number of a view is in its range.
fn are_in_range(eye: Point, focal: u32, threshold: u32) -> bool
    ensures { result ≡ is_view eye focal threshold }
{
    is_eye(eye) && is_in_range(focal, GREATEST_FOCAL) && is_in_range(threshold, GREATEST_THRESHOLD)
}

impl View {
    /// The view from the eye by the focal number, which wants the nodes whose score is above the threshold,
    /// in a frame of at most so many triangles.
    ///
    /// None exactly where a number is out of its range: the eye's coordinates are in -2,097,152 to
    /// 2,097,152, the focal number and the threshold in 1 to 65,536.
    pub fn new(eye: Point, focal: u32, threshold: u32, limit: u32) -> Option<View>
        ensures { result ≡ view_of eye focal threshold limit }
    {
        if !are_in_range(eye, focal, threshold) {
            return None;
        }
        Some(View {
            eye,
            focal,
            threshold,
            limit,
        })
    }

    /// Where the eye is.
    pub fn eye(&self) -> Point
        ensures value { result ≡ self.now.eye }
        ensures near { IsNearGrid result }
    {
        self.eye
    }

    /// The focal number: how large a unit at the distance 1 is on the screen.
    pub fn focal(&self) -> u32
        ensures { result ≡ self.now.focal }
    {
        self.focal
    }

    /// The score that a wanted node is above.
    pub fn threshold(&self) -> u32
        ensures { result ≡ self.now.threshold }
    {
        self.threshold
    }

    /// How many triangles a refined frame has at most.
    pub fn limit(&self) -> u32
        ensures { result ≡ self.now.limit }
    {
        self.limit
    }
}
