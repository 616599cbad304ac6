//! A finite map from ids to ranks with both its ends.

ghost use Rattle.std.specs.Prelude.{◌≡◌, ℕ, ◌<◌, ◌↔◌, [], length, slice_set, replicate, IsSome, IsNone, IfOk, IfSome, IfNone};
ghost use Rattle.tier_heap.specs.Entries.{rank_at, IsEmpty, IsGreatest, IsLeast, NoneFits, IsGreatestBy};

use crate::end_heap::{End, EndHeap};
use grid_vertex::NoMemory;
use std::alloc::Global;
use std::marker::Model;

/// A finite map from ids to ranks, ordered by rank, the lesser id above where ranks are equal.
///
/// Both ends are found at once; `insert`, `change` and `remove` take a time that grows with the
/// logarithm of the number of entries.
#[derive(Drop)]
pub struct PairHeap {
    ranks: Vec<Option<u64>>,
    greatest: EndHeap,
    least: EndHeap,
}

impl Model for PairHeap {
    ghost use Rattle.std.specs.Prelude.{List, Option, ℕ};

    ghost Value = { List (Option ℕ) };

    ghost use Rattle.tier_heap.specs.PairHeap.{IsPairHeap};

    ghost view = { λ heap. heap.ranks.items };

    ghost invariant = { IsPairHeap };
}

impl PairHeap {
    /// An empty map with room for no ids.
    pub fn new(alloc: Global) -> PairHeap
        ensures { result ≡ [] }
    {
        PairHeap {
            ranks: Vec::new(alloc),
            greatest: EndHeap::new(alloc, End::Greatest),
            least: EndHeap::new(alloc, End::Least),
        }
    }

    /// An empty map with room for the ids below a bound. No other call takes memory.
    pub fn with_ids(alloc: Global, ids: u32) -> Result<PairHeap, NoMemory>
        ensures { IfOk result (λ heap. heap ≡ replicate ids None) }
    {
        let ranks = vec![in alloc; None; ids as usize]?;
        let greatest = EndHeap::with_ids(alloc, End::Greatest, ids)?;
        let least = EndHeap::with_ids(alloc, End::Least, ids)?;
        Ok(PairHeap {
            ranks,
            greatest,
            least,
        })
    }

    /// The rank of an id, None where it isn't in the map.
    pub fn rank_of(&self, id: u32) -> Option<u64>
        ensures { result ≡ rank_at self.now id }
    {
        *self.ranks.get(id as usize)?
    }

    /// Puts an id into the map.
    pub fn insert(&mut self, id: u32, rank: u64)
        requires bound { id < length self.old }
        requires absent { rank_at self.old id ≡ None }
        ensures { self.new ≡ slice_set self.old id (Some rank) }
    {
        self.ranks[id as usize] = Some(rank);
        self.greatest.insert(&self.ranks, id);
        self.least.insert(&self.ranks, id);
    }

    /// Gives an id of the map another rank.
    pub fn change(&mut self, id: u32, rank: u64)
        requires { IsSome (rank_at self.old id) }
        ensures { self.new ≡ slice_set self.old id (Some rank) }
    {
        self.ranks[id as usize] = Some(rank);
        self.greatest.change(&self.ranks, id);
        self.least.change(&self.ranks, id);
    }

    /// Takes an id out of the map and gives its rank, None where it wasn't in.
    pub fn remove(&mut self, id: u32) -> Option<u64>
        ensures rank { result ≡ rank_at self.old id }
        ensures removed { self.new ≡ slice_set self.old id None }
    {
        let rank = self.rank_of(id)?;
        self.ranks[id as usize] = None;
        self.greatest.remove(&self.ranks, id);
        self.least.remove(&self.ranks, id);
        Some(rank)
    }

    /// Gives an id this rank, or takes it out of the map where there is none.
    pub fn set(&mut self, id: u32, rank: Option<u64>)
        requires { id < length self.old }
        ensures { self.new ≡ slice_set self.old id rank }
    {
        let is_in = self.rank_of(id).is_some();
        match rank {
            Some(rank) if is_in => self.change(id, rank),
            Some(rank) => self.insert(id, rank),
            None => {
                let _ = self.remove(id);
            }
        }
    }

    /// The id whose entry is above all others, None where the map is empty.
    pub fn greatest(&self) -> Option<u32>
        ensures none { IsNone result ↔ IsEmpty self.now }
        ensures greatest { IfSome result (IsGreatest self.now) }
    {
        self.greatest.first()
    }

    /// The id that fits whose entry is above all others that fit, None where none fits. No id is asked
    /// that is below one that fits.
    pub fn greatest_where<F: Fn(u32) -> bool>(&self, fits: F) -> Option<u32>
        requires { (id : ℕ) → IsSome (rank_at self.now id) → F.pre fits id }
        ensures none { IfNone result (NoneFits self.now (λ id answer. F.post fits id answer)) }
        ensures greatest { IfSome result
            (IsGreatestBy self.now (λ id answer. F.post fits id answer)) }
    {
        self.greatest.first_where(&self.ranks, fits)
    }

    /// The id whose entry is below all others, None where the map is empty.
    pub fn least(&self) -> Option<u32>
        ensures none { IsNone result ↔ IsEmpty self.now }
        ensures least { IfSome result (IsLeast self.now) }
    {
        self.least.first()
    }
}
