//! The sums that edges add.

ghost use Rattle.std.specs.Prelude.{◌≡◌, ◌+◌, ◌≤◌, ◌++◌, length, vec_len, vec_capacity};
ghost use Rattle.edge_chain.specs.Edges.{side_of};
ghost use Rattle.edge_chain.specs.Sums.{sums_of};

use crate::edges::{BorderEdge, Edge};
use grid_vertex::Point;

/// An edge and a part of its sum: each edge from the lesser point to the greater counts 1, each
/// edge back -1.
pub type Sum = (Edge, i64);

/// What the directed edge from one point to another adds.
fn side(from: Point, to: Point) -> Sum
    ensures { result ≡ side_of from to }
{
    if from.cmp(&to).is_lt() {
        (Edge { a: from, b: to }, 1)
    } else {
        (Edge { a: to, b: from }, -1)
    }
}

/// Appends what the edges add; an edge from a point to itself adds nothing.
pub fn push_edges(sums: &mut Vec<Sum>, edges: &[BorderEdge])
    requires { vec_len sums.old + length edges.now ≤ vec_capacity sums.old }
    ensures { sums.new.items ≡ sums.old.items ++ sums_of edges.now }
{
    for edge in edges {
        if edge.from.cmp(&edge.to).is_ne() {
            sums.push_reserved(side(edge.from, edge.to));
        }
    }
}
