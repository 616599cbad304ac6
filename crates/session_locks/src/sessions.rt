//! Sessions.

use crate::locked_patches::LockedPatches;
use accepted_mesh::Mesh;
use cut_refiner::Refiner;
use grid_vertex::NoMemory;
use round_model::View;
use std::alloc::Global;
use std::marker::Model;

/// A session over a mesh: a view, a round, the locks that are left over from earlier rounds, and at most one
/// refused try that isn't withdrawn yet.
#[derive(Drop)]
pub struct Session<'m> {
    mesh: &'m Mesh,
    number: u32,
    view: Option<View>,
    round: Option<Refiner<'m>>,
    is_printed: bool,
    // By the round, or without one from earlier rounds.
    locked: LockedPatches,
    flight: Option<u32>,
    frames: u64,
}

impl<'m> Model for Session<'m> {
    ghost use Rattle.session_locks.specs.Sessions.{SessionSeen, session_seen, AreParts};

    ghost Value = { SessionSeen };

    ghost view = { λ s.
        session_seen s.mesh.now.lists s.number s.view s.round s.is_printed s.locked s.flight
        s.frames };

    ghost invariant = { λ s.
        AreParts
        (session_seen s.mesh.now.lists s.number s.view s.round s.is_printed s.locked
        s.flight s.frames) s.locked };
}

impl<'m> Session<'m> {
    ghost use Rattle.std.specs.Prelude.{◌≡◌, ℕ, ◌^◌, ◌<◌, length, None, Some, IfOk, MatchOption};
    ghost use Rattle.session_model.specs.Sessions.{opened, round_ended, with_view, printed_once, counted_from};
    ghost use Rattle.session_locks.specs.Sessions.{SessionSeen, session_of, with_state, IsSession, IsDone};
    ghost use Rattle.session_locks.specs.Passes.{HasSameUses};

    /// The session of this number, without a view and without a round. It takes the room for all locks.
    pub fn open(alloc: Global, mesh: &'m Mesh, number: u32) -> Result<Session<'m>, NoMemory>
        ensures { IfOk result
            (λ s.
            s
            ≡ session_of mesh.now.lists number
            (opened (length mesh.now.lists.index.fields))) }
    {
        let patches = mesh.index().patch_count() as usize;
        let locked = LockedPatches::none_of(alloc, patches)?;
        Ok(Session {
            mesh,
            number,
            view: None,
            round: None,
            is_printed: false,
            locked,
            flight: None,
            frames: 0,
        })
    }

    /// The number that the session was opened with.
    pub fn number(&self) -> u32
        ensures value { result ≡ self.now.number }
        ensures facts { IsSession self.now }
    {
        self.number
    }

    /// Sets the view, which ends the round: its locks are old ones then.
    pub fn set_view(&mut self, view: View)
        ensures state { self.new ≡ with_state self.old (with_view view self.old.state) }
        ensures same { HasSameUses self.old.state self.new.state }
    {
        self.end_round();
        self.view = Some(view);
    }

    /// The round ends, and its locks are old ones then.
    fn end_round(&mut self)
        ensures state { self.new ≡ with_state self.old (round_ended self.old.state) }
        ensures same { HasSameUses self.old.state self.new.state }
    {
        self.round = None;
        self.is_printed = false;
    }

    /// The round that stands, and none where there is no round.
    pub fn round(&self) -> Option<&Refiner<'m>>
        ensures { MatchOption result (self.now.state.round ≡ None)
            (λ r. self.now.state.round ≡ Some r.now) }
    {
        self.round.as_ref()
    }

    /// How many frames were printed.
    pub fn frames(&self) -> u64
        ensures { result ≡ self.now.state.frames }
    {
        self.frames
    }

    /// Counts a frame, and marks its round as printed. Condition: the round is done, and fewer than 2^63
    /// frames were printed.
    pub fn printed(&mut self)
        requires done { IsDone self.old.state }
        requires few { self.old.state.frames < 2 ^ 63 }
        ensures state { self.new ≡ with_state self.old (printed_once self.old.state) }
        ensures same { HasSameUses self.old.state self.new.state }
    {
        self.is_printed = true;
        self.frames += 1;
    }

    /// Counts the frames on from this number.
    pub fn count_from(&mut self, frames: u64)
        ensures state { self.new ≡ with_state self.old (counted_from frames self.old.state) }
        ensures same { HasSameUses self.old.state self.new.state }
    {
        self.frames = frames;
    }
}

mod ending;
mod stepping;
