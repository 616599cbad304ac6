//! The patches that are locked.

ghost use Rattle.std.specs.Prelude.{◌≡◌, ◌<◌, ◌≤◌, [], ◌∷◌, ◌++◌, length, drop, slice_get, IfOk};

use grid_vertex::NoMemory;
use smallvec::SmallVec;
use std::alloc::Global;
use std::marker::Model;
use std::mem;

/// The patches locked at the node in hand, in the order of their tries, and those of the node that
/// missed last. Of these the first `given_back` were given back, and the others are owed.
#[derive(Drop)]
pub struct Locks {
    locked: SmallVec<u32, 8>,
    missed: SmallVec<u32, 8>,
    given_back: usize,
}

impl Model for Locks {
    ghost use Rattle.std.specs.Prelude.{drop, min};
    ghost use Rattle.cut_refiner.specs.Locks.{LockLists};

    ghost Value = { LockLists };

    ghost view = { λ l.
        record {
          locked = l.locked.items;
          owed = drop l.given_back l.missed.items;
          room = min l.locked.capacity l.missed.capacity;
        } };
}

impl Locks {
    /// No patches, with room for so many of a node.
    pub fn with_room(alloc: Global, room: usize) -> Result<Locks, NoMemory>
        ensures locked { IfOk result (λ locks. locks.locked ≡ []) }
        ensures owed { IfOk result (λ locks. locks.owed ≡ []) }
        ensures room { IfOk result (λ locks. room ≤ locks.room) }
    {
        let locked = SmallVec::with_capacity(alloc, room)?;
        let missed = SmallVec::with_capacity(alloc, room)?;
        Ok(Locks {
            locked,
            missed,
            given_back: 0,
        })
    }

    /// How many patches are locked at the node in hand.
    pub fn count(&self) -> usize
        ensures { result ≡ length self.now.locked }
    {
        self.locked.len()
    }

    /// The patch that is to be given back first.
    pub fn first_owed(&self) -> Option<u32>
        ensures { result ≡ slice_get self.now.owed 0 }
    {
        self.missed.as_slice().get(self.given_back).copied()
    }

    /// The patch is locked at the node in hand. Condition: there is room.
    pub fn add(&mut self, patch: u32)
        requires { length self.old.locked < self.old.room }
        ensures locked { self.new.locked ≡ self.old.locked ++ patch ∷ [] }
        ensures owed { self.new.owed ≡ self.old.owed }
        ensures room { self.new.room ≡ self.old.room }
    {
        self.locked.push_reserved(patch);
    }

    /// The node in hand joined: its patches are not given back.
    pub fn keep(&mut self)
        ensures locked { self.new.locked ≡ [] }
        ensures owed { self.new.owed ≡ self.old.owed }
        ensures room { self.new.room ≡ self.old.room }
    {
        self.locked.clear();
    }

    /// The node in hand missed: its patches are owed.
    pub fn owe(&mut self)
        ensures locked { self.new.locked ≡ [] }
        ensures owed { self.new.owed ≡ self.old.locked }
        ensures room { self.new.room ≡ self.old.room }
    {
        mem::swap(&mut self.locked, &mut self.missed);
        self.locked.clear();
        self.given_back = 0;
    }

    /// The first patch that is owed was given back. Condition: there is one.
    pub fn give_back(&mut self)
        requires { 1 ≤ length self.old.owed }
        ensures locked { self.new.locked ≡ self.old.locked }
        ensures owed { self.new.owed ≡ drop 1 self.old.owed }
        ensures room { self.new.room ≡ self.old.room }
    {
        // The count stays within this length.
        let _many = self.missed.len();
        self.given_back += 1;
    }
}
