//! A store whose files lie on the far side of a link.

ghost use Rattle.std.specs.Prelude.{◌≡◌, ◌-◌, ◌+◌, ◌^◌, ◌<◌, ◌≤◌, true, length, min, None, Ok, IfOk, OnErr};
ghost use Rattle.std.specs.Prelude.{MatchResult, IsTrue, is_err, ◌↔◌};
ghost use Rattle.view_outside.specs.Faults.{HasCause, Rose, faults_after};
ghost use Rattle.view_outside.specs.Files.{HasFile, HasName, Finds, ReadsFile, TellsBytes};
ghost use Rattle.view_outside.specs.Taken.{taken_after};
ghost use Rattle.view_outside.specs.Messages.{IsName, is_size, AsksName, AsksBytes};
ghost use Rattle.patch_link.specs.Asking.{RoseTogether};
ghost use Rattle.patch_link.specs.Questions.{GivesFileOf, GivesBytesOf};
ghost use Rattle.patch_link.specs.LinkStores.{files_over, faults_over, HasAsked, IsTurnedAway};

use crate::questions::{ask_bytes, ask_name};
use grid_vertex::NoMemory;
use std::alloc::Global;
use std::marker::Model;
use view_outside::{Failed, Link, Store};

/// A store whose files are asked for over a link. Each call draws a number, from 1 on, sends its question and receives,
/// again and again, until the answer comes, or 64 failures or 128 other messages.
///
/// Its files are the far side's where the link is honest, and else it tells nothing of them. Where the link is honest
/// and tells of the far store, a call fails only where that store failed or lacks what was asked for, or where it is
/// turned away at once.
#[derive(Drop)]
pub struct LinkStore<L: Link> {
    link: L,
    /// The number of the last question, 0 before the first.
    number: u64,
    /// How many calls were turned away.
    refused: u64,
    /// How many calls failed.
    failed: u64,
    taken: u128,
    buffer: Vec<u8>,
}

impl<L: Link> Model for LinkStore<L> {
    ghost use Rattle.std.specs.Prelude.{◌≡◌, length};
    ghost use Rattle.patch_link.specs.LinkStores.{LinkStoreSeen, IsReady};

    ghost Value = { LinkStoreSeen L };

    ghost view = { λ store. record {
      link = store.link;
      number = store.number;
      refused = store.refused;
      failed = store.failed;
      taken = store.taken;
    } };

    ghost invariant = { λ store. (length store.buffer.items ≡ 1280)
        × IsReady (L.last store.link) (L.tells store.link) (L.waiting store.link) store.number };
}

impl<L: Link + Drop> LinkStore<L> {
    /// A store over this link, over which nothing was sent yet.
    pub fn new(alloc: Global, link: L) -> Result<LinkStore<L>, NoMemory>
        requires { L.last link ≡ None }
        ensures link { IfOk result (λ store. store.link ≡ link) }
        ensures number { IfOk result (λ store. store.number ≡ 0) }
        ensures refused { IfOk result (λ store. store.refused ≡ 0) }
        ensures failed { IfOk result (λ store. store.failed ≡ 0) }
        ensures taken { IfOk result (λ store. store.taken ≡ 0) }
    {
        let buffer = vec![in alloc; 0; 1280]?;
        Ok(LinkStore {
            link,
            number: 0,
            refused: 0,
            failed: 0,
            taken: 0,
            buffer,
        })
    }
}

impl<L: Link> Store for LinkStore<L> {
    ghost files = { λ store. files_over (L.honest store.link) (L.far store.link) };

    ghost faults = { λ store. faults_over (L.honest store.link) (L.tells store.link)
        (L.far_faults store.link) store.refused store.failed };

    ghost taken = { λ store. store.taken };

    // The trait's clauses, and then what this store adds to them.
    fn find(&mut self, name: &str) -> Result<u32, Failed>
        ensures there { IfOk result
            (λ file. HasFile (files_over (L.honest self.old.link) (L.far self.old.link)) file) }
        ensures found { IfOk result
            (λ file. Finds (files_over (L.honest self.old.link) (L.far self.old.link)) name.now file) }
        ensures cause { HasCause
            (faults_over (L.honest self.old.link) (L.tells self.old.link)
            (L.far_faults self.old.link) self.old.refused self.old.failed)
            (faults_over (L.honest self.new.link) (L.tells self.new.link)
            (L.far_faults self.new.link) self.new.refused self.new.failed)
            (HasName (files_over (L.honest self.old.link) (L.far self.old.link)) name.now) result }
        ensures kept { files_over (L.honest self.new.link) (L.far self.new.link)
            ≡ files_over (L.honest self.old.link) (L.far self.old.link) }
        ensures taken { self.new.taken ≡ self.old.taken }

        ensures asked { IsName name.now → self.old.number < 2 ^ 64 - 1
            → HasAsked L.Sends L.Receives (AsksName (self.old.number + 1) name.now)
            (λ answer. GivesFileOf answer result) self.old self.new }
        ensures cost { IsName name.now → self.old.number < 2 ^ 64 - 1
            → OnErr result (RoseTogether 64 (L.faults self.old.link) (L.received self.old.link)
            (L.faults self.new.link) (L.received self.new.link)) }
        ensures lost { L.tells self.old.link ≡ true → IsName name.now
            → self.old.number < 2 ^ 64 - 1
            → OnErr result (HasName (L.far self.old.link) name.now
            → Rose (L.far_faults self.old.link) (L.far_faults self.new.link)) }
        ensures no_name { (IsName name.now → ⊥) → IsTurnedAway self.old self.new result }
        ensures last { self.old.number ≡ 2 ^ 64 - 1 → IsTurnedAway self.old self.new result }
        ensures failed { self.new.failed ≡ faults_after (is_err result) self.old.failed }
    {
        if !is_name(name) || self.number == u64::MAX {
            self.refused = self.refused.saturating_add(1);
            self.failed = self.failed.saturating_add(1);
            return Err(Failed);
        }
        self.number += 1;
        match ask_name(&mut self.link, self.number, name, &mut self.buffer) {
            Ok(file) => Ok(file),
            Err(failed) => {
                self.failed = self.failed.saturating_add(1);
                Err(failed)
            }
        }
    }

    // The trait's clauses, and then what this store adds to them.
    fn read_at(&mut self, file: u32, offset: u64, buffer: &mut [u8]) -> Result<usize, Failed>
        ensures bound { IfOk result (λ n. n ≤ length buffer.new) }
        ensures bytes { IfOk result
            (λ n. ReadsFile (files_over (L.honest self.old.link) (L.far self.old.link)) file offset buffer.new n) }
        ensures told { IfOk result (λ _. 0 < length buffer.new
            → TellsBytes (files_over (L.honest self.old.link) (L.far self.old.link)) file) }
        ensures cause { HasCause
            (faults_over (L.honest self.old.link) (L.tells self.old.link)
            (L.far_faults self.old.link) self.old.refused self.old.failed)
            (faults_over (L.honest self.new.link) (L.tells self.new.link)
            (L.far_faults self.new.link) self.new.refused self.new.failed)
            (HasFile (files_over (L.honest self.old.link) (L.far self.old.link)) file) result }
        ensures kept { files_over (L.honest self.new.link) (L.far self.new.link)
            ≡ files_over (L.honest self.old.link) (L.far self.old.link) }
        ensures taken { MatchResult result
            (λ n. self.new.taken ≡ taken_after self.old.taken n)
            (λ _. self.new.taken ≡ self.old.taken) }

        ensures asked { 0 < length buffer.old → self.old.number < 2 ^ 64 - 1
            → HasAsked L.Sends L.Receives
            (AsksBytes (self.old.number + 1) file offset (min (length buffer.old) 1024))
            (λ answer. GivesBytesOf buffer.new answer result) self.old self.new }
        ensures cost { 0 < length buffer.old → self.old.number < 2 ^ 64 - 1
            → OnErr result (RoseTogether 64 (L.faults self.old.link) (L.received self.old.link)
            (L.faults self.new.link) (L.received self.new.link)) }
        ensures lost { L.tells self.old.link ≡ true → 0 < length buffer.old
            → self.old.number < 2 ^ 64 - 1
            → OnErr result (HasFile (L.far self.old.link) file
            → Rose (L.far_faults self.old.link) (L.far_faults self.new.link)) }
        ensures no_room { length buffer.old ≡ 0 → (self.new ≡ self.old) × (result ≡ Ok 0) }
        ensures last { 0 < length buffer.old → self.old.number ≡ 2 ^ 64 - 1
            → IsTurnedAway self.old self.new result }
        ensures failed { self.new.failed ≡ faults_after (is_err result) self.old.failed }
    {
        if buffer.is_empty() {
            return Ok(0);
        }
        if self.number == u64::MAX {
            self.refused = self.refused.saturating_add(1);
            self.failed = self.failed.saturating_add(1);
            return Err(Failed);
        }
        self.number += 1;
        let size = size_of(buffer);
        match ask_bytes(
            &mut self.link,
            self.number,
            file,
            offset,
            size,
            buffer,
            &mut self.buffer,
        ) {
            Ok(n) => {
                self.taken = self.taken.saturating_add(n as u128);
                Ok(n)
            }
            Err(failed) => {
                self.failed = self.failed.saturating_add(1);
                Err(failed)
            }
        }
    }
}

/// Whether a far side can be asked for this name: it has 1 to 255 bytes.
fn is_name(name: &str) -> bool
    ensures { IsTrue result ↔ IsName name.now }
{
    !name.is_empty() && name.len() <= 255
}

/// How many bytes are asked for to fill this buffer: at most 1,024.
fn size_of(buffer: &[u8]) -> u16
    requires { 0 < length buffer.now }
    ensures value { result ≡ min (length buffer.now) 1024 }
    ensures right { is_size result ≡ true }
{
    buffer.len().min(1024) as u16
}
