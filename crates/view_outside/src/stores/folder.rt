//! Files of the system.

ghost use Rattle.std.specs.Prelude.{◌≡◌, ◌<◌, ◌≤◌, length, None, IfOk, IfSome};

use crate::failed::Failed;
use crate::faults::FaultCount;
use crate::interrupts;
use crate::stores::Store;
use std::alloc::{AllocError, Global};
use std::marker::Model;
use std::os::unix::fs::FileExt;
use std::rt::Files;
use std::{fs, io};

/// How many files are opened at most.
const ROOM: usize = 2;

/// A file that was found, under the name that it was asked for by.
#[derive(Drop)]
struct OpenedFile<F> {
    name: String,
    file: F,
}

/// The system's files, numbered from 0 as they are found. Two are opened at most.
/// It is seen as its count of faults and its count of bytes, and tells nothing of the files.
#[derive(Drop)]
pub struct FolderStore<R: Files> {
    runtime: R,
    alloc: Global,
    opened: Vec<OpenedFile<R::File>>,
    faults: FaultCount,
    taken: u128,
}

impl<R: Files> Model for FolderStore<R> {
    ghost use Rattle.std.specs.Prelude.{◌≤◌, vec_len};
    ghost use Rattle.std.specs.Prelude.{vec_capacity};
    ghost use Rattle.view_outside.specs.FolderCounts.{FolderCounts};
    ghost use Rattle.view_outside.specs.declared.stores.folder.TheConstants.{ROOM};

    ghost Value = { FolderCounts };

    ghost view = { λ store. record { faults = store.faults; taken = store.taken } };

    ghost invariant = { λ store.
        (vec_len store.opened ≤ ROOM) × (ROOM ≤ vec_capacity store.opened) };
}

impl<R: Files + Drop> FolderStore<R> {
    /// A store that has opened nothing. It takes the memory for its list here.
    pub fn new(runtime: R, alloc: Global) -> Result<FolderStore<R>, AllocError>
        ensures faults { IfOk result (λ store. store.faults ≡ 0) }
        ensures taken { IfOk result (λ store. store.taken ≡ 0) }
    {
        let opened = Vec::with_capacity(alloc, ROOM)?;
        Ok(FolderStore {
            runtime,
            alloc,
            opened,
            faults: FaultCount::new(),
            taken: 0,
        })
    }

    /// Opens a file and answers its place. None where all places are taken, the system refuses it
    /// or there is no memory for its name.
    fn open_next(&mut self, name: &str) -> Option<usize>
        ensures place { IfSome result (λ place. place < ROOM) }
        ensures kept { self.new ≡ self.old }
    {
        let place = self.opened.len();
        if place >= ROOM {
            return None;
        }
        let file = fs::open(&self.runtime, name).ok()?;
        let name = String::from_str(self.alloc, name).ok()?;
        if self.opened.push(OpenedFile { name, file }).is_err() {
            unreachable!()
        }
        Some(place)
    }
}

impl<R: Files + Drop> Store for FolderStore<R>
where
    R::File: FileExt,
{
    ghost files = { λ _. None };

    ghost faults = { λ store. store.faults };

    ghost taken = { λ store. store.taken };

    fn find(&mut self, name: &str) -> Result<u32, Failed> {
        if let Some(place) = place_opened(&self.opened, name) {
            return Ok(place as u32);
        }
        if let Some(place) = self.open_next(name) {
            return Ok(place as u32);
        }
        Err(self.faults.raise())
    }

    fn read_at(&mut self, file: u32, offset: u64, buffer: &mut [u8]) -> Result<usize, Failed> {
        if let Some(opened) = self.opened.get(file as usize) {
            if let Ok(n) = read_from(&opened.file, offset, buffer) {
                self.taken = self.taken.saturating_add(n as u128);
                return Ok(n);
            }
        }
        Err(self.faults.raise())
    }
}

/// The place of the file that was found by this name.
fn place_opened<F>(opened: &[OpenedFile<F>], name: &str) -> Option<usize>
    ensures { IfSome result (λ place. place < length opened.now) }
{
    opened.iter().position(|file| file.name.as_str() == name)
}

/// Reads what stands at this offset of a file.
fn read_from<F: FileExt>(file: &F, offset: u64, buffer: &mut [u8]) -> io::Result<usize>
    ensures { IfOk result (λ n. n ≤ length buffer.new) }
{
    interrupts::read_at(file, offset, buffer)
}
