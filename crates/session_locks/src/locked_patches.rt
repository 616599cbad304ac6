//! Which patches are locked.

ghost use Rattle.std.specs.Prelude.{◌≡◌, ◌<◌, Bool, false, List, length, replicate, set, Some, IfOk};
ghost use Rattle.std.specs.List.{position};

use grid_vertex::NoMemory;
use std::alloc::Global;
use std::marker::Model;

/// Which patches of a mesh are locked. The least one is looked for from where the one stood that was unlocked last.
#[derive(Drop)]
pub struct LockedPatches {
    are_locked: Vec<bool>,
    // No patch below it is locked.
    start: usize,
}

impl Model for LockedPatches {
    ghost use Rattle.std.specs.Prelude.{Bool, List};
    ghost use Rattle.session_locks.specs.LockedPatches.{IsStart};

    ghost Value = { List Bool };

    ghost view = { λ l. l.are_locked.items };

    ghost invariant = { λ l. IsStart l.start l.are_locked.items };
}

impl LockedPatches {
    /// So many patches, of which none is locked.
    pub fn none_of(alloc: Global, patches: usize) -> Result<LockedPatches, NoMemory>
        ensures { IfOk result (λ locked. locked ≡ replicate patches false) }
    {
        let are_locked = vec![in alloc; false; patches]?;
        Ok(LockedPatches {
            are_locked,
            start: 0,
        })
    }

    /// The least patch that is locked.
    pub fn least(&self) -> Option<usize>
        ensures { result ≡ position (λ (is_locked : Bool). is_locked) self.now }
    {
        match first_locked(&self.are_locked[self.start..]) {
            Some(further) => Some(self.start + further),
            None => None,
        }
    }

    /// The patch is locked from now on, or it isn't.
    pub fn set(&mut self, patch: usize, is_locked: bool)
        requires { patch < length self.old }
        ensures { self.new ≡ set self.old patch is_locked }
    {
        self.are_locked[patch] = is_locked;
        self.start = self.start.min(patch);
    }

    /// The least patch that is locked is so no more.
    pub fn unlock_least(&mut self, patch: usize)
        requires { position (λ (is_locked : Bool). is_locked) self.old ≡ Some patch }
        ensures { self.new ≡ set self.old patch false }
    {
        self.are_locked[patch] = false;
        self.start = patch;
    }
}

/// The first place that holds true.
fn first_locked(are_locked: &[bool]) -> Option<usize>
    ensures { result ≡ position (λ (is_locked : Bool). is_locked) are_locked.now }
{
    are_locked.iter().position(|is_locked| *is_locked)
}
