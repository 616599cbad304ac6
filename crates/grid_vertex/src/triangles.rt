//! Triangles of three points.

use crate::points::Point;

/// A triangle with its corners in order: its edges go from a to b, b to c and c to a.
#[derive(Clone, Copy, Debug, PartialEq, Eq)]
pub struct Triangle {
    pub a: Point,
    pub b: Point,
    pub c: Point,
}

impl Triangle {
    ghost use Rattle.std.specs.Prelude.{◌≡◌};
    ghost use Rattle.grid_vertex.specs.Triangles.{is_flat_triangle};

    /// Tells whether two corners are equal points.
    #[tactic(auto, unfolding(crate::specs::Triangles::is_flat_triangle))]
    pub fn is_flat(&self) -> bool
        ensures { result ≡ is_flat_triangle self.now }
    {
        self.a == self.b || self.b == self.c || self.c == self.a
    }
}
