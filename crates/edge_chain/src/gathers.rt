//! Gathering: the sums of one edge become one, in place.

ghost use Rattle.std.specs.Prelude.{◌≡◌, ◌+◌, ◌<◌, ◌≤◌, ◌^◌, length, take, drop, [], ◌++◌, unsigned_abs};
ghost use Rattle.edge_chain.specs.Edges.{edge_cmp};
ghost use Rattle.edge_chain.specs.Totals.{weight, alone};
ghost use Rattle.edge_chain.specs.Gathers.{Meets, Rises, Gathers, Gathered};

use crate::edges::Edge;
use crate::sums::Sum;

// Where a sum goes behind `kept` gathered ones, and what it is there: it joins the last one if that
// has its edge.
fn meet(sums: &[Sum], kept: usize, edge: Edge, sum: i64) -> (usize, i64)
    requires within { kept ≤ length sums.now }
    requires small { weight (take kept sums.now) + unsigned_abs sum < 2 ^ 63 }
    ensures front { result.0 ≤ kept }
    ensures both { Meets edge_cmp (take kept sums.now) (edge, sum) (take result.0 sums.now)
        result.1 }
{
    if kept > 0 {
        let (last, before) = sums[kept - 1];
        if last.cmp(&edge).is_eq() {
            return (kept - 1, before + sum);
        }
    }
    (kept, sum)
}

// Writes a sum unless it is 0, and returns where the next one goes.
fn place(sums: &mut [Sum], front: usize, edge: Edge, sum: i64) -> usize
    requires { front < length sums.old }
    ensures next { result ≤ front + 1 }
    ensures kept { take result sums.new ≡ take front sums.old ++ alone (edge, sum) }
    ensures rest { drop (front + 1) sums.new ≡ drop (front + 1) sums.old }
{
    if sum == 0 {
        return front;
    }
    sums[front] = (edge, sum);
    front + 1
}

// Gathers sums in the order of their edges at the front, and returns how many there are.
fn gather_sorted(sums: &mut [Sum]) -> usize
    requires small { weight sums.old < 2 ^ 63 }
    requires rises { Rises edge_cmp sums.old }
    ensures within { result ≤ length sums.new }
    ensures gathered { Gathers edge_cmp (take result sums.new) [] sums.old }
{
    let mut kept = 0;
    for at in 0..sums.len() {
        let (edge, sum) = sums[at];
        let (front, both) = meet(sums, kept, edge, sum);
        kept = place(sums, front, edge, both);
    }
    kept
}

/// Sorts the sums and joins those of one edge; sums of 0 go. It takes no memory.
pub fn gather_sums(sums: &mut Vec<Sum>)
    requires { weight sums.old.items < 2 ^ 63 }
    ensures { Gathered edge_cmp sums.old.items sums.new.items }
{
    sums.sort_unstable();
    let kept = gather_sorted(sums);
    sums.truncate(kept);
}
