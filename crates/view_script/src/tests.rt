//! Scripts with and without faults, and sources that fail or never end.

mod faults;
mod scripts;
mod sources;

use super::*;
use std::alloc::{AllocError, Global};
use view_outside::MemorySource;

// A source of this text, which gives seven bytes at a time.
fn source_of(alloc: Global, text: &[u8]) -> Result<MemorySource, AllocError> {
    Ok(MemorySource::new(text.to_vec(alloc)?, 7, Vec::new(alloc)))
}

// What is read of this text.
fn read(alloc: Global, text: &[u8], mode: Mode, tiers: u32) -> Result<Script, ScriptRefusal> {
    read_script(alloc, &mut source_of(alloc, text)?, mode, tiers)
}
