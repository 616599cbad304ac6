//! The number of edges whose sums don't cancel, in a list that needn't be gathered.

ghost use Rattle.std.specs.Prelude.{◌≡◌, ◌+◌, ◌<◌, ◌≤◌, ◌^◌, true, length};
ghost use Rattle.edge_chain.specs.Edges.{edge_cmp};
ghost use Rattle.edge_chain.specs.Gaps.{IsTight};
ghost use Rattle.edge_chain.specs.Totals.{weight, normal, some};

use crate::scans::total_of;
use crate::sums::Sum;

// A count of edges whose sums aren't 0, after one of the sums has changed.
fn recount(count: usize, before: i64, after: i64) -> usize
    requires room { count + some after < 2 ^ 64 }
    requires counted { some before ≤ count + some after }
    ensures { result + some before ≡ count + some after }
{
    match (before == 0, after == 0) {
        (true, false) => count + 1,
        (false, true) => count - 1,
        _ => count,
    }
}

// The number of edges whose sums don't cancel, in quadratic time.
fn recount_all(sums: &[Sum]) -> usize
    requires { weight sums.now < 2 ^ 63 }
    ensures { result ≡ length (normal edge_cmp sums.now) }
{
    let mut count = 0;
    for at in 0..sums.len() {
        let edge = sums[at].0;
        let before = total_of(&sums[..at], &edge);
        let after = total_of(&sums[..at + 1], &edge);
        count = recount(count, before, after);
    }
    count
}

/// The number of edges whose sums don't cancel: how many sums there are where they are gathered,
/// else in quadratic time.
pub fn count_open(sums: &[Sum], gathered: bool) -> usize
    requires small { weight sums.now < 2 ^ 63 }
    requires tight { gathered ≡ true → IsTight edge_cmp sums.now }
    ensures { result ≡ length (normal edge_cmp sums.now) }
{
    if gathered {
        sums.len()
    } else {
        recount_all(sums)
    }
}
