//! A store over a store that reads ahead by blocks.

ghost use Rattle.std.specs.Prelude.{◌≡◌, ◌-◌, ◌<◌, ◌≤◌, ◌↔◌, true, length, IfOk, IsTrue, MatchResult};
ghost use Rattle.view_outside.specs.Blocks.{HandsOnce, LeavesNone};
ghost use Rattle.view_outside.specs.Faults.{HasCause};
ghost use Rattle.view_outside.specs.Files.{HasFile, HasName, Finds, ReadsFile, TellsBytes};
ghost use Rattle.view_outside.specs.Taken.{taken_after};

use crate::copies::copy_from;
use crate::failed::Failed;
use crate::stores::Store;
use std::alloc::Global;
use std::marker::Model;

/// How many bytes a block has.
const SIZE: usize = 65_536;

/// A read into a buffer of so many bytes goes past the block: there is less to save than to copy.
const LARGE: usize = 4_096;

/// A store that reads ahead: where the reads of a file go forward, one read of the store behind it, into a block of
/// 65,536 bytes, serves those that follow.
///
/// Its files and its faults are those of the store behind; it counts the bytes that it hands over, and not those
/// that it reads ahead. It isn't a cache: each byte of a block is handed over once at most, so who reads a place again
/// gets what the file holds by then. Where a file changes meanwhile, the bytes of one block at most are from before.
#[derive(Drop)]
pub struct ReadAhead<S: Store> {
    store: S,
    taken: u128,
    /// Empty until the first read that reads ahead.
    block: Vec<u8>,
    /// The file that was read last.
    file: u32,
    /// The offset in the file at which the block begins.
    base: u64,
    /// How far behind the base the bytes end that were handed over last.
    handed: usize,
    /// How many of the block's first bytes are the file's.
    end: usize,
}

impl<S: Store> Model for ReadAhead<S> {
    ghost use Rattle.std.specs.Prelude.{◌+◌, ◌≤◌, ◌<◌, length};
    ghost use Rattle.view_outside.specs.Blocks.{Ahead, HoldsPart};

    ghost Value = { Ahead S };

    ghost view = { λ ahead. record {
      store = ahead.store;
      taken = ahead.taken;
      left = record {
        file = ahead.file;
        from = ahead.base + ahead.handed;
        upto = ahead.base + ahead.end;
      };
    } };

    ghost invariant = { λ ahead.
        (ahead.end ≤ length ahead.block.items)
        × (0 < ahead.end → HoldsPart (S.files ahead.store) ahead.file ahead.base
        ahead.block.items ahead.end) };
}

impl<S: Store> ReadAhead<S> {
    /// A store over this one that has read nothing. It takes no memory: the block's is taken by the first read that
    /// reads ahead, and where there is none, each read asks the store behind.
    pub fn new(alloc: Global, store: S) -> ReadAhead<S>
        ensures store { result.store ≡ store }
        ensures taken { result.taken ≡ 0 }
        ensures left { LeavesNone result.left }
    {
        ReadAhead {
            store,
            taken: 0,
            block: Vec::new(alloc),
            file: 0,
            base: 0,
            handed: 0,
            end: 0,
        }
    }

    /// How many bytes the store has handed over. It stays at its last value where a sum would pass that.
    pub fn taken(&self) -> u128
        ensures { result ≡ self.now.taken }
    {
        self.taken
    }
}

impl<S: Store> Store for ReadAhead<S> {
    ghost files = { λ ahead. S.files ahead.store };

    ghost faults = { λ ahead. S.faults ahead.store };

    ghost taken = { λ ahead. ahead.taken };

    // The trait's clauses, and then what this store adds to them.
    fn find(&mut self, name: &str) -> Result<u32, Failed>
        ensures there { IfOk result (λ file. HasFile (S.files self.old.store) file) }
        ensures found { IfOk result (λ file. Finds (S.files self.old.store) name.now file) }
        ensures cause { HasCause (S.faults self.old.store) (S.faults self.new.store)
            (HasName (S.files self.old.store) name.now) result }
        ensures kept { S.files self.new.store ≡ S.files self.old.store }
        ensures taken { self.new.taken ≡ self.old.taken }

        ensures left { self.new.left ≡ self.old.left }
    {
        self.store.find(name)
    }

    // The trait's clauses, and then what this store adds to them.
    fn read_at(&mut self, file: u32, offset: u64, buffer: &mut [u8]) -> Result<usize, Failed>
        ensures bound { IfOk result (λ n. n ≤ length buffer.new) }
        ensures bytes { IfOk result
            (λ n. ReadsFile (S.files self.old.store) file offset buffer.new n) }
        ensures told { IfOk result
            (λ _. 0 < length buffer.new → TellsBytes (S.files self.old.store) file) }
        ensures cause { HasCause (S.faults self.old.store) (S.faults self.new.store)
            (HasFile (S.files self.old.store) file) result }
        ensures kept { S.files self.new.store ≡ S.files self.old.store }
        ensures taken { MatchResult result
            (λ n. self.new.taken ≡ taken_after self.old.taken n)
            (λ _. self.new.taken ≡ self.old.taken) }

        ensures once { MatchResult result
            (λ n. HandsOnce S.taken file offset n self.old self.new)
            (λ _. LeavesNone self.new.left) }
    {
        if file == self.file
            && offset >= self.base
            && offset - self.base >= self.handed as u64
            && offset - self.base < self.end as u64
        {
            let place = (offset - self.base) as usize;
            let n = copy_from(&self.block[..self.end], place, buffer);
            self.taken = self.taken.saturating_add(n as u128);
            self.handed = place + n;
            return Ok(n);
        }
        let goes_on = file == self.file
            && offset >= self.base
            && is_near(self.handed as u64, offset - self.base);
        self.file = file;
        self.base = offset;
        // Where the read fails, there is no block.
        self.handed = 0;
        self.end = 0;
        if goes_on && buffer.len() < LARGE && has_block(&mut self.block) {
            self.end = self.store.read_at(file, offset, &mut self.block)?;
            self.handed = copy_from(&self.block[..self.end], 0, buffer);
        } else {
            self.handed = self.store.read_at(file, offset, buffer)?;
        }
        self.taken = self.taken.saturating_add(self.handed as u128);
        Ok(self.handed)
    }
}

/// Tells whether a place is less than a block behind the bytes that were handed over last.
fn is_near(handed: u64, place: u64) -> bool
    ensures { IsTrue result ↔ (handed ≤ place) × (place - handed < SIZE) }
{
    place >= handed && place - handed < SIZE as u64
}

/// Makes the block where there is none yet, and tells whether there is one then.
fn has_block(block: &mut Vec<u8>) -> bool
    ensures room { result ≡ true → 0 < length block.new.items }
    ensures kept { 0 < length block.old.items → result ≡ true }
{
    !block.is_empty() || block.resize(SIZE, 0).is_ok()
}
