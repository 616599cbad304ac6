//! Patch files: reading them piece by piece from a store, and writing them to a sink.
//!
//! `docs/FORMAT.md` tells the format. What a reader answers is what reading the whole file from left to
//! right gives.
#![tactic(auto)]

mod batches;
mod fields;
mod file_parts;
mod front_bytes;
mod full_reads;
mod header;
mod index;
mod readers;
mod sizes;
mod writing;

pub use file_model::{FileFault, Node, PatchField, ReadRefusal, Try};
pub use file_parts::FileParts;
pub use index::Index;
pub use patch_body::Body;
pub use readers::{read_body, read_end, read_index};
pub use writing::write_file;

#[cfg(test)]
mod tests;
