//! The strip as a file in memory, and its mesh.

ghost use Rattle.std.specs.Prelude.{◌≡◌, ◌%◌, ◌≤◌, IfOk};
ghost use Rattle.file_model.specs.Rules.{IsPatchFile};
ghost use Rattle.file_model.specs.Spelling.{file_text};
ghost use Rattle.file_model.specs.declared.refusals.ReadRefusal.TheVariants as reads;
ghost use Rattle.accepted_mesh.specs.MeshView.{IsMeshOf};
ghost use Rattle.dag_check.specs.declared.refusals.CheckRefusal.TheVariants as checks;
ghost use Rattle.strip_laws.specs.declared.limits.TheConstants.{MOST_COLUMNS};
ghost use Rattle.bench_laws.specs.BenchRuns.{bench_file};
ghost use Rattle.bench_run.specs.StripChecks.{strip_files};

use crate::growing::GrowingSink;
use crate::sure::SureStore;
use dag_check::{CheckRefusal, Mesh, check};
use file_model::ReadRefusal;
use grid_vertex::NoMemory;
use mesh_maker::strip;
use patch_file::{FileParts, Index, read_index, write_file};
use std::alloc::Global;

// The bytes of the patch file that the parts are.
fn bytes_of(alloc: Global, parts: &FileParts) -> Result<Vec<u8>, NoMemory>
    requires { IsPatchFile parts.now (file_text parts.now) }
    ensures { IfOk result (λ bytes. bytes.items ≡ file_text parts.now) }
{
    let mut sink = GrowingSink::new(alloc);
    // The sink fails only for want of memory.
    match write_file(parts, &mut sink) {
        Ok(()) => Ok(sink.into_bytes()),
        Err(_) => Err(NoMemory),
    }
}

/// A store whose file 0 is the strip of so many columns.
pub fn strip_store(alloc: Global, columns: u32) -> Result<SureStore, NoMemory>
    requires even { columns % 2 ≡ 0 }
    requires least { 2 ≤ columns }
    requires most { columns ≤ MOST_COLUMNS }
    ensures { IfOk result
        (λ store. store.files ≡ strip_files columns) }
{
    let parts = strip(alloc, columns)?;
    let bytes = bytes_of(alloc, &parts)?;
    SureStore::new(alloc, bytes)
}

// A read of a file of a store that never fails is refused only so.
fn memory_of_read(refusal: ReadRefusal) -> NoMemory
    requires { refusal ≡ reads.Memory }
{
    match refusal {
        ReadRefusal::Memory => NoMemory,
        ReadRefusal::File(_) => unreachable!(),
        ReadRefusal::ReadFault => unreachable!(),
    }
}

// And so is the check of an accepted one.
fn memory_of_check(refusal: CheckRefusal) -> NoMemory
    requires { refusal ≡ checks.Memory }
{
    match refusal {
        CheckRefusal::Memory => NoMemory,
        CheckRefusal::Refused(_) => unreachable!(),
        CheckRefusal::ReadFault => unreachable!(),
    }
}

// The index of the strip's file.
fn strip_index(alloc: Global, store: &mut SureStore, columns: u32) -> Result<Index, NoMemory>
    requires least { 2 ≤ columns }
    requires most { columns ≤ MOST_COLUMNS }
    requires file { store.old.files ≡ strip_files columns }
    ensures index { IfOk result (λ index. index ≡ (bench_file columns).index) }
    ensures files { store.new.files ≡ store.old.files }
{
    match read_index(alloc, store, 0) {
        Ok(index) => Ok(index),
        Err(refusal) => Err(memory_of_read(refusal)),
    }
}

/// The mesh of the strip, from its file in the store, each body of which is read once.
pub fn strip_mesh(alloc: Global, store: &mut SureStore, columns: u32) -> Result<Mesh, NoMemory>
    requires least { 2 ≤ columns }
    requires most { columns ≤ MOST_COLUMNS }
    requires file { store.old.files ≡ strip_files columns }
    ensures mesh { IfOk result (IsMeshOf (bench_file columns)) }
    ensures files { store.new.files ≡ store.old.files }
{
    let index = strip_index(alloc, store, columns)?;
    match check(alloc, index, store, 0) {
        Ok(mesh) => Ok(mesh),
        Err(refusal) => Err(memory_of_check(refusal)),
    }
}
