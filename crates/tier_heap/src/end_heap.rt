//! A binary heap of the ids of a map, with the place of each.

ghost use Rattle.std.specs.Prelude.{◌≡◌, ℕ, ◌<◌, ◌↔◌, [], length, slice_set, replicate, IsSome, IsNone, IfOk, IfSome, IfNone};
ghost use Rattle.std.specs.List.{range_with_len};
ghost use Rattle.tier_heap.specs.Entries.{rank_at, is_above};
ghost use Rattle.tier_heap.specs.EndHeap.{entry_of, is_ahead, id_at, place_of, IsIndex, Lists, IsParent, IsBehind, IsLoose, IsLooseBelow, IsFirstChild, Leads, Exchanges, IsEndHeap};

use grid_vertex::NoMemory;
use std::alloc::Global;

/// Which entries of the map come first.
#[derive(Clone, Copy)]
pub enum End {
    Greatest,
    Least,
}

/// All ids in an order in which those of the map come first, as a heap: none comes before its
/// parent, which for place `p` is at `(p - 1) / 2`.
#[derive(Drop)]
pub struct EndHeap {
    end: End,
    order: Vec<u32>,
    places: Vec<u32>,
    count: usize,
}

/// The rank of an id of the map.
fn rank_in(ranks: &[Option<u64>], id: u32) -> u64
    requires { IsSome (rank_at ranks.now id) }
    ensures { rank_at ranks.now id ≡ Some result }
{
    ranks[id as usize].unwrap()
}

/// Whether the entry of one id is above that of the other.
fn has_rank_above(ranks: &[Option<u64>], id: u32, other: u32) -> bool
    requires id { IsSome (rank_at ranks.now id) }
    requires other { IsSome (rank_at ranks.now other) }
    ensures { result ≡ is_above (entry_of ranks.now id) (entry_of ranks.now other) }
{
    let rank = rank_in(ranks, id);
    let other_rank = rank_in(ranks, other);
    rank > other_rank || (rank == other_rank && id < other)
}

/// All ids below a bound, each at its own place.
fn all_ids(alloc: Global, ids: u32) -> Result<Vec<u32>, NoMemory>
    ensures { IfOk result (λ list. list.items ≡ range_with_len 0 ids) }
{
    Ok((0..ids).collect(alloc)?)
}

impl EndHeap {
    /// The heap of an empty map, with room for no ids.
    pub fn new(alloc: Global, end: End) -> EndHeap
        ensures heap { IsEndHeap [] result }
        ensures end { result.end ≡ end }
    {
        EndHeap {
            end,
            order: Vec::new(alloc),
            places: Vec::new(alloc),
            count: 0,
        }
    }

    /// The heap of an empty map, with room for the ids below a bound.
    pub fn with_ids(alloc: Global, end: End, ids: u32) -> Result<EndHeap, NoMemory>
        ensures heap { IfOk result (λ heap. IsEndHeap (replicate ids None) heap) }
        ensures end { IfOk result (λ heap. heap.end ≡ end) }
    {
        let order = all_ids(alloc, ids)?;
        let places = all_ids(alloc, ids)?;
        Ok(EndHeap {
            end,
            order,
            places,
            count: 0,
        })
    }

    /// The place of an id.
    fn place(&self, id: u32) -> usize
        requires { id < length self.now.places.items }
        ensures { result ≡ place_of self.now id }
    {
        self.places[id as usize] as usize
    }

    /// Whether the id at one place comes before the id at another.
    #[tactic(auto, unfolding(crate::specs::EndHeap::is_ahead))]
    fn is_ahead(&self, ranks: &[Option<u64>], place: usize, other: usize) -> bool
        requires lists { Lists ranks.now self.now }
        requires place { place < self.now.count }
        requires other { other < self.now.count }
        ensures { result
            ≡ is_ahead self.now.end ranks.now (id_at self.now place) (id_at self.now other) }
    {
        let id = self.order[place];
        let other_id = self.order[other];
        match self.end {
            End::Greatest => has_rank_above(ranks, id, other_id),
            End::Least => has_rank_above(ranks, other_id, id),
        }
    }

    /// Exchanges the ids at two places.
    fn exchange(&mut self, place: usize, other: usize)
        requires index { IsIndex self.old }
        requires place { place < length self.old.order.items }
        requires other { other < length self.old.order.items }
        ensures { Exchanges self.old self.new place other }
    {
        let id = self.order[place];
        let other_id = self.order[other];
        self.order.swap(place, other);
        self.places.swap(id as usize, other_id as usize);
    }

    /// The child of a place that comes first of its children.
    fn first_child(&self, ranks: &[Option<u64>], at: usize) -> Option<usize>
        requires lists { Lists ranks.now self.now }
        requires at { at < self.now.count }
        ensures none { IfNone result ((child : ℕ) → IsParent self.now at child → ⊥) }
        ensures first { IfSome result (IsFirstChild ranks.now self.now at) }
    {
        let left = 2 * at + 1;
        let right = left + 1;
        if right < self.count && self.is_ahead(ranks, right, left) {
            Some(right)
        } else if left < self.count {
            Some(left)
        } else {
            None
        }
    }

    /// The child of a place that comes before it and before the place's other child.
    fn leading_child(&self, ranks: &[Option<u64>], at: usize) -> Option<usize>
        requires lists { Lists ranks.now self.now }
        requires at { at < self.now.count }
        ensures none { IfNone result
            ((child : ℕ) → IsParent self.now at child → IsBehind ranks.now self.now child at) }
        ensures leads { IfSome result (Leads ranks.now self.now at) }
    {
        let child = self.first_child(ranks, at)?;
        if self.is_ahead(ranks, child, at) {
            Some(child)
        } else {
            None
        }
    }

    /// Moves the id at a place towards the first place until it comes after its parent.
    fn sift_up(&mut self, ranks: &[Option<u64>], mut at: usize) -> usize
        requires lists { Lists ranks.now self.old }
        requires at { at < self.old.count }
        requires loose { IsLoose ranks.now self.old at }
        ensures lists { Lists ranks.now self.new }
        ensures at { result < self.new.count }
        ensures loose { IsLooseBelow ranks.now self.new result }
        ensures end { self.new.end ≡ self.old.end }
    {
        while at > 0 {
            let parent = (at - 1) / 2;
            if !self.is_ahead(ranks, at, parent) {
                return at;
            }
            self.exchange(at, parent);
            at = parent;
        }
        at
    }

    /// Moves the id at a place away from the first place until it comes before its children.
    fn sift_down(&mut self, ranks: &[Option<u64>], mut at: usize)
        requires lists { Lists ranks.now self.old }
        requires at { at < self.old.count }
        requires loose { IsLooseBelow ranks.now self.old at }
        ensures heap { IsEndHeap ranks.now self.new }
        ensures end { self.new.end ≡ self.old.end }
    {
        while let Some(child) = self.leading_child(ranks, at) {
            self.exchange(at, child);
            at = child;
        }
    }

    /// Moves the id at a place to where it belongs.
    fn settle(&mut self, ranks: &[Option<u64>], at: usize)
        requires lists { Lists ranks.now self.old }
        requires at { at < self.old.count }
        requires loose { IsLoose ranks.now self.old at }
        ensures heap { IsEndHeap ranks.now self.new }
        ensures end { self.new.end ≡ self.old.end }
    {
        let at = self.sift_up(ranks, at);
        self.sift_down(ranks, at);
    }

    /// Takes in an id that has come into the map.
    pub fn insert(&mut self, ranks: &[Option<u64>], id: u32)
        requires heap { IsEndHeap (slice_set ranks.now id None) self.old }
        requires present { IsSome (rank_at ranks.now id) }
        ensures heap { IsEndHeap ranks.now self.new }
        ensures end { self.new.end ≡ self.old.end }
    {
        let at = self.place(id);
        let last = self.count;
        self.exchange(at, last);
        self.count += 1;
        self.settle(ranks, last);
    }

    /// Moves an id whose rank has changed to where it belongs.
    pub fn change(&mut self, ranks: &[Option<u64>], id: u32)
        requires heap { (rank : ℕ) × IsEndHeap (slice_set ranks.now id (Some rank)) self.old }
        requires present { IsSome (rank_at ranks.now id) }
        ensures heap { IsEndHeap ranks.now self.new }
        ensures end { self.new.end ≡ self.old.end }
    {
        let at = self.place(id);
        self.settle(ranks, at);
    }

    /// Lets go of an id that has left the map.
    pub fn remove(&mut self, ranks: &[Option<u64>], id: u32)
        requires heap { (rank : ℕ) × IsEndHeap (slice_set ranks.now id (Some rank)) self.old }
        requires bound { id < length ranks.now }
        requires absent { rank_at ranks.now id ≡ None }
        ensures heap { IsEndHeap ranks.now self.new }
        ensures end { self.new.end ≡ self.old.end }
    {
        let at = self.place(id);
        self.count -= 1;
        self.exchange(at, self.count);
        if at < self.count {
            self.settle(ranks, at);
        }
    }

    /// The id that comes before all others of the map.
    pub fn first(&self) -> Option<u32>
        requires { IsIndex self.now }
        ensures none { IsNone result ↔ (self.now.count ≡ 0) }
        ensures first { IfSome result (λ id. (0 < self.now.count) × (id ≡ id_at self.now 0)) }
    {
        if self.count == 0 {
            None
        } else {
            Some(self.order[0])
        }
    }
}

mod searches;
