//! The ends of small heaps against an ordered set, and a large heap to its end.

ghost use Rattle.std.specs.Prelude.{◌≡◌, ◌<◌, length};

use crate::PairHeap;
use std::cmp::Reverse;
use std::collections::BTreeSet;
use std::process::Abort;
use std::test::Fail;

/// A change of a heap.
#[derive(Clone, Copy)]
enum Step {
    Insert(u32, u64),
    Change(u32, u64),
    Remove(u32),
}

use Step::{Change, Insert, Remove};

const LISTS: [[Step; 12]; 6] = [
    [
        Insert(0, 5),
        Insert(1, 5),
        Insert(2, 5),
        Insert(3, 5),
        Insert(4, 5),
        Insert(5, 5),
        Remove(0),
        Remove(1),
        Remove(5),
        Remove(4),
        Remove(2),
        Remove(3),
    ],
    [
        Insert(5, 1),
        Insert(4, 2),
        Insert(3, 3),
        Insert(2, 4),
        Insert(1, 5),
        Insert(0, 6),
        Change(0, 0),
        Change(5, 7),
        Change(3, 7),
        Remove(5),
        Remove(3),
        Change(1, 1),
    ],
    [
        Insert(2, 9),
        Remove(2),
        Insert(2, 8),
        Insert(4, 8),
        Change(2, 0),
        Insert(0, 8),
        Insert(1, 3),
        Remove(4),
        Insert(4, 0),
        Insert(5, 3),
        Change(1, 10),
        Remove(1),
    ],
    [
        Insert(3, 0),
        Insert(1, u64::MAX),
        Insert(5, u64::MAX),
        Change(1, 0),
        Change(3, u64::MAX),
        Insert(0, 0),
        Remove(3),
        Insert(2, 1),
        Insert(3, 1),
        Insert(4, 1),
        Change(5, 1),
        Remove(0),
    ],
    [
        Insert(0, 6),
        Insert(1, 5),
        Insert(2, 4),
        Insert(3, 3),
        Insert(4, 2),
        Insert(5, 1),
        Change(0, 1),
        Change(1, 1),
        Change(2, 1),
        Change(3, 1),
        Change(4, 1),
        Remove(0),
    ],
    [
        Insert(1, 7),
        Insert(3, 2),
        Insert(5, 9),
        Insert(0, 2),
        Remove(3),
        Change(5, 2),
        Insert(4, 7),
        Insert(3, 9),
        Insert(2, 4),
        Remove(1),
        Change(2, 9),
        Change(4, 9),
    ],
];

/// Makes a step in the heap and in the set that orders the same entries.
fn take_step(
    rt: &impl Abort,
    heap: &mut PairHeap,
    entries: &mut BTreeSet<(u64, Reverse<u32>)>,
    step: Step,
) -> Result<(), Fail>
    requires { length heap.old ≡ 6 }
    ensures { length heap.new ≡ 6 }
{
    match step {
        Insert(id, rank) => {
            assert!(rt; id < 6);
            assert_eq!(rt; heap.rank_of(id), None);
            heap.insert(id, rank);
            entries.insert((rank, Reverse(id)))?;
        }
        Change(id, rank) => {
            let Some(before) = heap.rank_of(id) else {
                return Err(Fail::from("no such id"));
            };
            heap.change(id, rank);
            assert!(rt; entries.remove(&(before, Reverse(id))));
            entries.insert((rank, Reverse(id)))?;
        }
        Remove(id) => {
            let before = heap.remove(id).ok_or("no such id")?;
            assert!(rt; entries.remove(&(before, Reverse(id))));
        }
    }
    Ok(())
}

#[test]
fn has_the_ends_of_an_ordered_set(rt: HostRuntime) -> Result<(), Fail> {
    for steps in LISTS {
        let mut heap = PairHeap::with_ids(rt.alloc(), 6)?;
        let mut entries = BTreeSet::new(rt.alloc());
        for step in steps {
            take_step(&rt, &mut heap, &mut entries, step)?;
            assert_eq!(rt; heap.greatest(), entries.last().map(|entry| entry.1.0));
            assert_eq!(rt; heap.least(), entries.first().map(|entry| entry.1.0));
        }
    }
    Ok(())
}

const MANY: u32 = 65_536;

/// Puts an id into a heap, or gives it another rank.
fn set_rank(heap: &mut PairHeap, id: u32, rank: u64)
    requires { id < length heap.old }
    ensures { length heap.new ≡ length heap.old }
{
    if heap.rank_of(id).is_some() {
        heap.change(id, rank);
    } else {
        heap.insert(id, rank);
    }
}

#[test]
fn gives_many_ids_in_their_order(rt: HostRuntime) -> Result<(), Fail> {
    let mut heap = PairHeap::with_ids(rt.alloc(), MANY)?;
    for id in 0..MANY {
        set_rank(&mut heap, id, u64::from(id) * 40_503 % 1_021);
    }
    for id in 0..MANY {
        set_rank(&mut heap, id, u64::from(id) * 30_011 % 509);
    }
    let mut last = (u64::MAX, 0);
    for _ in 0..MANY / 2 {
        let greatest = heap.greatest().ok_or("empty too soon")?;
        let rank = heap.remove(greatest).ok_or("no such id")?;
        assert!(rt; rank < last.0 || (rank == last.0 && greatest > last.1));
        last = (rank, greatest);
    }
    let mut last = (0, u32::MAX);
    for _ in 0..MANY / 2 {
        let least = heap.least().ok_or("empty too soon")?;
        let rank = heap.remove(least).ok_or("no such id")?;
        assert!(rt; rank > last.0 || (rank == last.0 && least < last.1));
        last = (rank, least);
    }
    assert_eq!(rt; heap.greatest(), None);
    assert_eq!(rt; heap.least(), None);
    Ok(())
}

#[test]
fn finds_the_greatest_that_fits(rt: HostRuntime) -> Result<(), Fail> {
    let mut heap = PairHeap::with_ids(rt.alloc(), 5)?;
    assert_eq!(rt; heap.greatest_where(|_| true), None);
    heap.set(0, Some(7));
    heap.set(1, Some(3));
    heap.set(2, Some(9));
    heap.set(3, Some(7));
    assert_eq!(rt; heap.greatest_where(|_| true), Some(2));
    assert_eq!(rt; heap.greatest_where(|id| id != 2), Some(0));
    assert_eq!(rt; heap.greatest_where(|id| id % 2 == 1), Some(3));
    heap.set(3, None);
    assert_eq!(rt; heap.greatest_where(|id| id % 2 == 1), Some(1));
    assert_eq!(rt; heap.greatest_where(|id| id > 2), None);
    Ok(())
}
