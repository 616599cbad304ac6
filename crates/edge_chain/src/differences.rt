//! Where two chains differ.

ghost use Rattle.std.specs.Prelude.{◌≡◌, None, option_map};
ghost use Rattle.edge_chain.specs.Edges.{edge_cmp};
ghost use Rattle.edge_chain.specs.Gaps.{gap_by, first_gap as gap_of};
ghost use Rattle.edge_chain.specs.Differences.{difference_at, difference_of, edge_at};

use crate::edges::Edge;
use crate::sums::Sum;
use grid_vertex::Point;
use std::cmp::Ordering;

/// A pair of points whose sums differ.
#[derive(Clone, Copy, Debug, PartialEq, Eq)]
pub struct Difference {
    /// The lesser point.
    pub a: Point,
    /// The greater point.
    pub b: Point,
    /// The sum in the chain that was asked.
    pub here: i64,
    /// The sum in the other chain.
    pub there: i64,
}

impl Difference {
    pub(crate) fn at(edge: &Edge, here: i64, there: i64) -> Difference
        ensures { result ≡ difference_at edge.now here there }
    {
        Difference {
            a: edge.a,
            b: edge.b,
            here,
            there,
        }
    }

    pub(crate) fn edge(&self) -> Edge
        ensures { result ≡ edge_at self.now }
    {
        Edge {
            a: self.a,
            b: self.b,
        }
    }
}

// What differs at the lesser of two edges, where each is the least of its list.
fn gap_between(ours: Sum, theirs: Sum) -> Option<Difference>
    ensures { result
        ≡ option_map difference_of
        (gap_by edge_cmp (edge_cmp ours.0 theirs.0) ours theirs None) }
{
    let (edge, here) = ours;
    let (other, there) = theirs;
    match edge.cmp(&other) {
        Ordering::Less => Some(Difference::at(&edge, here, 0)),
        Ordering::Greater => Some(Difference::at(&other, 0, there)),
        Ordering::Equal if here == there => None,
        Ordering::Equal => Some(Difference::at(&edge, here, there)),
    }
}

/// The least edge whose sums differ, of gathered lists.
pub fn first_gap(here: &[Sum], there: &[Sum]) -> Option<Difference>
    ensures { result ≡ option_map difference_of (gap_of edge_cmp here.now there.now) }
{
    let both = here.len().min(there.len());
    for at in 0..both {
        if let Some(difference) = gap_between(here[at], there[at]) {
            return Some(difference);
        }
    }
    match (here.get(both), there.get(both)) {
        (Some((edge, sum)), _) => Some(Difference::at(edge, *sum, 0)),
        (None, Some((edge, sum))) => Some(Difference::at(edge, 0, *sum)),
        (None, None) => None,
    }
}
