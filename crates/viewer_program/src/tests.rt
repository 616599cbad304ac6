//! The commands over objects in memory.

use crate::run::run_still;
use crate::telling::tell;
use file_model::FileFault;
use grid_vertex::Point;
use mesh_model::{DagFault, Refusal};
use sample_files::{
    SQUARE_ACCEPTED, SQUARE_BASE, SQUARE_FAN, chain, circle, halves, square, square_2, strip,
    turned,
};
use std::alloc::Global;
use std::test::Fail;
use text_model::{ScriptFault, Status};
use view_outside::{MemorySink, MemorySource, MemoryStore, NamedFile, Store};

mod accepted;
mod changes;
mod changing;
mod converting;
mod culling;
mod environment;
mod failures;
mod files;
mod graphs;
mod large;
mod living;
mod making;
mod picking;
mod playing;
mod statuses;
mod usage;
mod views;

// A store of one file Q. The reads and calls of these numbers fail.
fn store_with(
    alloc: Global,
    bytes: &[u8],
    fail_reads: &[(u64, u32)],
    fail_calls: &[u64],
) -> Result<MemoryStore, Fail> {
    let file = NamedFile::new(String::from_str(alloc, "Q")?, bytes.to_vec(alloc)?);
    let files = vec![in alloc; file]?;
    Ok(MemoryStore::new(files, fail_reads.to_vec(alloc)?, fail_calls.to_vec(alloc)?))
}

// The same, where only calls fail.
fn store_of(alloc: Global, bytes: &[u8], fail_calls: &[u64]) -> Result<MemoryStore, Fail> {
    store_with(alloc, bytes, &[], fail_calls)
}

fn owned_words(alloc: Global, words: &[&str]) -> Result<Vec<String>, Fail> {
    let mut owned = Vec::new(alloc);
    for word in words {
        owned.push(String::from_str(alloc, word)?)?;
    }
    Ok(owned)
}

// The status of the words over the store with this script, and what was written to a sink of this room.
fn run_script<S: Store>(
    alloc: Global,
    words: &[&str],
    store: &mut S,
    script: &str,
    room: usize,
) -> Result<(Status, String), Fail> {
    let owned = owned_words(alloc, words)?;
    let mut source = MemorySource::new(script.as_bytes().to_vec(alloc)?, 5, Vec::new(alloc));
    let mut sink = MemorySink::with_room(alloc, room, 7, Vec::new(alloc))?;
    let status = run_still(alloc, &owned, store, &mut source, &mut sink);
    match String::from_utf8(sink.bytes().to_vec(alloc)?) {
        Ok(written) => Ok((status, written)),
        Err(_) => Err(Fail::from("no text was written")),
    }
}

// The same without a script.
fn run<S: Store>(
    alloc: Global,
    words: &[&str],
    store: &mut S,
    room: usize,
) -> Result<(Status, String), Fail> {
    run_script(alloc, words, store, "", room)
}

// The same over a file Q of these bytes.
fn run_on(alloc: Global, words: &[&str], bytes: &[u8]) -> Result<(Status, String), Fail> {
    let mut store = store_of(alloc, bytes, &[])?;
    run(alloc, words, &mut store, 1000)
}

// Why the file of these bytes is refused, where it is refused by both commands and nothing is written.
fn refused(alloc: Global, bytes: &[u8]) -> Result<Option<Refusal>, Fail> {
    let (by_check, checked) = run_on(alloc, &["check", "Q"], bytes)?;
    let (by_base, based) = run_on(alloc, &["base", "Q"], bytes)?;
    if by_check != by_base || !checked.is_empty() || !based.is_empty() {
        return Ok(None);
    }
    match by_check {
        Status::Refused(refusal) => Ok(Some(refusal)),
        _ => Ok(None),
    }
}

fn file_fault(alloc: Global, bytes: &[u8]) -> Result<Option<FileFault>, Fail> {
    match refused(alloc, bytes)? {
        Some(Refusal::File(fault)) => Ok(Some(fault)),
        _ => Ok(None),
    }
}

fn mesh_fault(alloc: Global, bytes: &[u8]) -> Result<Option<DagFault>, Fail> {
    match refused(alloc, bytes)? {
        Some(Refusal::Dag(fault)) => Ok(Some(fault)),
        _ => Ok(None),
    }
}

// The bytes with others in these places.
fn with_bytes(alloc: Global, bytes: &[u8], changes: &[(usize, u8)]) -> Result<Vec<u8>, Fail> {
    let mut changed = bytes.to_vec(alloc)?;
    for (place, byte) in changes {
        if let Some(old) = changed.get_mut(*place) {
            *old = *byte;
        }
    }
    Ok(changed)
}
