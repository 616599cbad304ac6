//! Files in memory.

ghost use Rattle.std.specs.Prelude.{◌≡◌, ◌^◌, ◌≤◌, length, Some, IfOk, MatchResult, vec_len, string_bytes};
ghost use Rattle.std.specs.Result.{result_ok, result_unwrap_or};
ghost use Rattle.view_outside.specs.Faults.{HasCause};
ghost use Rattle.view_outside.specs.Files.{number_named, HasFile, HasName, Finds, ReadsFile, TellsBytes};
ghost use Rattle.view_outside.specs.StoreState.{find_answer, after_find, read_answer, after_read};
ghost use Rattle.view_outside.specs.Taken.{taken_after};

use crate::copies::copy_from;
use crate::failed::Failed;
use crate::faults::FaultCount;
use crate::planned::{PlannedCalls, PlannedReads};
use crate::stores::Store;
use std::marker::Model;

/// A file: its name and its bytes.
#[derive(Drop)]
pub struct NamedFile {
    name: String,
    bytes: Vec<u8>,
}

impl Model for NamedFile {
    ghost use Rattle.std.specs.Prelude.{string_bytes};
    ghost use Rattle.view_outside.specs.Files.{Named};

    ghost Value = { Named };

    ghost view = { λ file. (string_bytes file.name, file.bytes.items) };
}

impl NamedFile {
    pub fn new(name: String, bytes: Vec<u8>) -> NamedFile
        ensures { result ≡ (string_bytes name, bytes.items) }
    {
        NamedFile { name, bytes }
    }
}

/// Files in memory, numbered from 0 in their order, with calls that are to fail.
#[derive(Drop)]
pub struct MemoryStore {
    files: Vec<NamedFile>,
    fail_reads: PlannedReads,
    fail_calls: PlannedCalls,
    faults: FaultCount,
    taken: u128,
}

impl Model for MemoryStore {
    ghost use Rattle.std.specs.Prelude.{◌^◌, ◌≤◌, length};
    ghost use Rattle.view_outside.specs.StoreState.{StoreState};

    ghost Value = { StoreState };

    ghost view = { λ store. record {
      files = store.files.items;
      fail_reads = store.fail_reads;
      fail_calls = store.fail_calls;
      faults = store.faults;
      taken = store.taken;
    } };

    // So each file has a number.
    ghost invariant = { λ store. length store.files.items ≤ 2 ^ 32 };
}

impl MemoryStore {
    /// A store of these files. An entry (o, n) of `fail_reads` makes the n-th read at offset o fail,
    /// and an entry c of `fail_calls` the c-th call. Both count from 1.
    pub fn new(
        files: Vec<NamedFile>,
        fail_reads: Vec<(u64, u32)>,
        fail_calls: Vec<u64>,
    ) -> MemoryStore
        requires { vec_len files ≤ 2 ^ 32 }
        ensures files { result.files ≡ files.items }
        ensures fail_reads { result.fail_reads ≡ fail_reads.items }
        ensures fail_calls { result.fail_calls ≡ fail_calls.items }
        ensures faults { result.faults ≡ 0 }
        ensures taken { result.taken ≡ 0 }
    {
        MemoryStore {
            files,
            fail_reads: PlannedReads::new(fail_reads),
            fail_calls: PlannedCalls::new(fail_calls),
            faults: FaultCount::new(),
            taken: 0,
        }
    }

    /// How many bytes the store has handed over. It stays at its last value where a sum would pass that.
    pub fn taken(&self) -> u128
        ensures { result ≡ self.now.taken }
    {
        self.taken
    }
}

impl Store for MemoryStore {
    ghost files = { λ store. Some store.files };

    ghost faults = { λ store. store.faults };

    ghost taken = { λ store. store.taken };

    // The trait's clauses, and then what this store adds to them.
    fn find(&mut self, name: &str) -> Result<u32, Failed>
        ensures there { IfOk result (λ file. HasFile (Some self.old.files) file) }
        ensures found { IfOk result (λ file. Finds (Some self.old.files) name.now file) }
        ensures cause { HasCause self.old.faults self.new.faults
            (HasName (Some self.old.files) name.now) result }
        ensures kept { self.new.files ≡ self.old.files }
        ensures taken { self.new.taken ≡ self.old.taken }

        ensures answer { result_ok result ≡ find_answer self.old name.now }
        ensures after { self.new ≡ after_find self.old }
    {
        if self.fail_calls.count() {
            return Err(self.faults.raise());
        }
        match place_named(&self.files, name) {
            Some(place) => Ok(place as u32),
            None => Err(Failed),
        }
    }

    // The trait's clauses, and then what this store adds to them.
    fn read_at(&mut self, file: u32, offset: u64, buffer: &mut [u8]) -> Result<usize, Failed>
        ensures bound { IfOk result (λ n. n ≤ length buffer.new) }
        ensures bytes { IfOk result
            (λ n. ReadsFile (Some self.old.files) file offset buffer.new n) }
        ensures told { IfOk result (λ _. TellsBytes (Some self.old.files) file) }
        ensures cause { HasCause self.old.faults self.new.faults
            (HasFile (Some self.old.files) file) result }
        ensures kept { self.new.files ≡ self.old.files }
        ensures taken { MatchResult result
            (λ n. self.new.taken ≡ taken_after self.old.taken n)
            (λ _. self.new.taken ≡ self.old.taken) }

        ensures answer { result_ok result ≡ read_answer self.old file offset (length buffer.old) }
        ensures after { self.new ≡ after_read self.old offset (result_unwrap_or result 0) }
    {
        let call_fails = self.fail_calls.count();
        let read_fails = self.fail_reads.count(offset);
        if call_fails || read_fails {
            return Err(self.faults.raise());
        }
        let Some(named) = self.files.get(file as usize) else {
            return Err(Failed);
        };
        let n = copy_from(&named.bytes, offset as usize, buffer);
        self.taken = self.taken.saturating_add(n as u128);
        Ok(n)
    }
}

/// The place of the first file of this name.
fn place_named(files: &[NamedFile], name: &str) -> Option<usize>
    ensures { result ≡ number_named files.now name.now }
{
    files.iter().position(|file| file.name.as_str() == name)
}
