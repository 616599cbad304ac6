//! Sums of lists that needn't be gathered.

ghost use Rattle.std.specs.Prelude.{◌≡◌, ◌+◌, ◌<◌, ◌≤◌, ◌^◌, true, ◌+ℤ◌, None, FitsSigned};
ghost use Rattle.std.specs.List.{fold};
ghost use Rattle.edge_chain.specs.Edges.{edge_cmp};
ghost use Rattle.edge_chain.specs.Gaps.{IsTight};
ghost use Rattle.edge_chain.specs.Totals.{part, total, weight};
ghost use Rattle.edge_chain.specs.Differences.{Finds};
ghost use Rattle.edge_chain.specs.Scans.{is_late, better};
ghost use mir.Syntax.{w64};

use crate::differences::{Difference, first_gap};
use crate::edges::Edge;
use crate::sums::Sum;

// A total with one more sum, if that is the edge's.
fn with_part(total: i64, edge: &Edge, other: &Edge, sum: i64) -> i64
    requires { FitsSigned w64 (total +ℤ part edge_cmp edge.now (other.now, sum)) }
    ensures { result ≡ total +ℤ part edge_cmp edge.now (other.now, sum) }
{
    if edge.cmp(other).is_eq() {
        total + sum
    } else {
        total
    }
}

/// What the edge's sums are together.
pub fn total_of(sums: &[Sum], edge: &Edge) -> i64
    requires { weight sums.now < 2 ^ 63 }
    ensures { result ≡ total edge_cmp sums.now edge.now }
{
    let mut total = 0;
    for (other, sum) in sums {
        total = with_part(total, edge, other, *sum);
    }
    total
}

// Tells whether the edge doesn't come before the best difference so far.
fn is_past(best: &Option<Difference>, edge: &Edge) -> bool
    ensures { result ≡ is_late best.now edge.now }
{
    match best {
        Some(best) => !edge.cmp(&best.edge()).is_lt(),
        None => false,
    }
}

// The difference at the edge, where there is one and it comes before the best so far; else that.
fn better_at(
    best: Option<Difference>,
    edge: &Edge,
    here: &[Sum],
    there: &[Sum],
) -> Option<Difference>
    requires here { weight here.now < 2 ^ 63 }
    requires there { weight there.now < 2 ^ 63 }
    ensures { result ≡ better here.now there.now best edge.now }
{
    if is_past(&best, edge) {
        return best;
    }
    let ours = total_of(here, edge);
    let theirs = total_of(there, edge);
    if ours == theirs {
        return best;
    }
    Some(Difference::at(edge, ours, theirs))
}

// The first difference at the edges of a list, or the best so far.
fn scan_edges(
    best: Option<Difference>,
    edges: &[Sum],
    here: &[Sum],
    there: &[Sum],
) -> Option<Difference>
    requires here { weight here.now < 2 ^ 63 }
    requires there { weight there.now < 2 ^ 63 }
    ensures { result ≡ fold (λ b e. better here.now there.now b e.0) best edges.now }
{
    let mut best = best;
    for (edge, _) in edges {
        best = better_at(best, edge, here, there);
    }
    best
}

// The least edge whose sums differ, in quadratic time.
fn scan_differences(here: &[Sum], there: &[Sum]) -> Option<Difference>
    requires here { weight here.now < 2 ^ 63 }
    requires there { weight there.now < 2 ^ 63 }
    ensures { Finds here.now there.now result }
{
    let best = scan_edges(None, here, here, there);
    scan_edges(best, there, here, there)
}

/// The least edge whose sums differ: in one pass where both lists are gathered, else in quadratic
/// time.
pub fn find_difference(here: &[Sum], there: &[Sum], gathered: bool) -> Option<Difference>
    requires here { weight here.now < 2 ^ 63 }
    requires there { weight there.now < 2 ^ 63 }
    requires tight { gathered ≡ true → IsTight edge_cmp here.now × IsTight edge_cmp there.now }
    ensures { Finds here.now there.now result }
{
    if gathered {
        first_gap(here, there)
    } else {
        scan_differences(here, there)
    }
}
