//! Stores that never fail.

ghost use Rattle.std.specs.Prelude.{◌≡◌, ◌≤◌, ◌∷◌, [], length, Some, IfOk, MatchResult, string_bytes};
ghost use Rattle.view_outside.specs.Faults.{HasCause};
ghost use Rattle.view_outside.specs.Files.{HasFile, HasName, Finds, ReadsFile, TellsBytes};
ghost use Rattle.view_outside.specs.Taken.{taken_after};

use grid_vertex::NoMemory;
use std::alloc::Global;
use std::marker::Model;
use view_outside::{Failed, MemoryStore, NamedFile, Store};

/// A file in memory, with number 0. No read is planned to fail, so the store has no fault, ever.
#[derive(Drop)]
pub struct SureStore {
    store: MemoryStore,
}

impl Model for SureStore {
    ghost use Rattle.view_outside.specs.StoreState.{StoreState};
    ghost use Rattle.bench_run.specs.SureStores.{IsSure};

    ghost Value = { StoreState };

    ghost view = { λ sure. sure.store };

    ghost invariant = { λ sure. IsSure sure.store };
}

impl SureStore {
    /// A store of one file, with these bytes and no name.
    pub fn new(alloc: Global, bytes: Vec<u8>) -> Result<SureStore, NoMemory>
        ensures { IfOk result (λ store. store.files ≡ ([], bytes.items) ∷ []) }
    {
        let mut files = Vec::new(alloc);
        files.push(NamedFile::new(String::new(alloc), bytes))?;
        let store = MemoryStore::new(files, Vec::new(alloc), Vec::new(alloc));
        Ok(SureStore { store })
    }
}

impl Store for SureStore {
    ghost files = { λ store. Some store.files };

    ghost faults = { λ store. 0 };

    ghost taken = { λ store. store.taken };

    fn find(&mut self, name: &str) -> Result<u32, Failed> {
        self.store.find(name)
    }

    fn read_at(&mut self, file: u32, offset: u64, buffer: &mut [u8]) -> Result<usize, Failed> {
        self.store.read_at(file, offset, buffer)
    }
}
