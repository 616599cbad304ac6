//! Edges without a direction, and directed ones.

ghost use Rattle.std.specs.Prelude.{◌≡◌};
ghost use Rattle.edge_chain.specs.Edges.{sides_of};

use grid_vertex::{Point, Triangle};

/// An edge without a direction, its lesser point first.
#[derive(Clone, Copy, Debug, PartialEq, Eq, PartialOrd, Ord)]
pub struct Edge {
    pub a: Point,
    pub b: Point,
}

/// A directed edge of a border: it goes from one point to another.
#[derive(Clone, Copy, Debug, PartialEq, Eq)]
pub struct BorderEdge {
    pub from: Point,
    pub to: Point,
}

impl BorderEdge {
    /// The edges of a triangle, from corner to corner in order.
    pub(crate) fn sides(triangle: Triangle) -> [BorderEdge; 3]
        ensures { result ≡ sides_of triangle }
    {
        let Triangle { a, b, c } = triangle;
        [
            BorderEdge { from: a, to: b },
            BorderEdge { from: b, to: c },
            BorderEdge { from: c, to: a },
        ]
    }
}
