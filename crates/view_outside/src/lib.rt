//! The outside of the viewer: files that are read, a source of text and a sink of text, and gates that a run passes.
//!
//! Each is a trait, and so is a link to the far side of a file, whose messages may be lost, repeated and reordered. Those
//! in memory tell what they hold; those over the system's files and streams tell nothing of it.
//! Each counts its faults, so that a failed call can be traced to the outside.
#![tactic(auto)]

mod copies;
mod failed;
mod faults;
mod gates;
mod interrupts;
mod links;
mod planned;
mod sinks;
mod sources;
mod stores;

pub use failed::{Failed, WriteFault};
pub use gates::{Gate, GatePoint, HoldGate, OpenGate};
pub use links::Link;
pub use sinks::{MemorySink, Sink, StdSink, write_all};
pub use sources::{MemorySource, Source, StdSource};
pub use stores::{FolderStore, MemoryStore, NamedFile, ReadAhead, Store};

#[cfg(test)]
mod tests;
