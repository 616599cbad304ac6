//! Nodes that may be tried, the one that comes first at hand.

ghost use Rattle.std.specs.Prelude.{◌≡◌, ◌<◌, ◌≤◌, [], ◌∷◌, length, IfOk, MatchOption, IsPermutation};
ghost use Rattle.cut_refiner.specs.Candidates.{IsFirst};

use grid_vertex::NoMemory;
use std::alloc::Global;
use std::cmp::Reverse;
use std::collections::BinaryHeap;
use std::marker::Model;

/// A node that may be tried. The greater one is tried first.
#[derive(Clone, Copy, PartialEq, Eq, PartialOrd, Ord)]
pub struct Candidate {
    pub score: u64,
    pub level: Reverse<u32>,
    pub node: Reverse<u32>,
}

/// Candidates in a heap.
#[derive(Drop)]
pub struct Candidates {
    heap: BinaryHeap<Candidate>,
}

impl Model for Candidates {
    ghost use Rattle.std.specs.BinaryHeap.{IsHeap, heap_items, heap_capacity};
    ghost use Rattle.cut_refiner.specs.Candidates.{Waiting, candidate_order};

    ghost Value = { Waiting };

    ghost view = { λ c. record { items = heap_items c.heap; room = heap_capacity c.heap } };

    ghost invariant = { λ c. IsHeap candidate_order (heap_items c.heap) };
}

impl Candidates {
    /// No candidates, with room for so many.
    pub fn with_room(alloc: Global, room: usize) -> Result<Candidates, NoMemory>
        ensures items { IfOk result (λ candidates. candidates.items ≡ []) }
        ensures room { IfOk result (λ candidates. candidates.room ≡ room) }
    {
        let heap = BinaryHeap::with_capacity(alloc, room)?;
        Ok(Candidates { heap })
    }

    /// Puts one in. Condition: there is room.
    pub fn push(&mut self, candidate: Candidate)
        requires { length self.old.items < self.old.room }
        ensures items { IsPermutation (candidate ∷ self.old.items) self.new.items }
        ensures room { self.old.room ≤ self.new.room }
    {
        let _pushed = self.heap.push(candidate);
    }

    /// Takes out the one that is tried first.
    pub fn pop(&mut self) -> Option<Candidate>
        ensures taken { MatchOption result (self.old.items ≡ [])
            (λ first. IsPermutation self.old.items (first ∷ self.new.items)) }
        ensures first { MatchOption result (self.new.items ≡ [])
            (λ first. IsFirst first self.old.items) }
        ensures room { self.new.room ≡ self.old.room }
    {
        self.heap.pop()
    }
}
