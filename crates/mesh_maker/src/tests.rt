//! Strips as they are written.

ghost use Rattle.std.specs.Prelude.{◌≤◌};
ghost use Rattle.file_model.specs.Spelling.{file_text};
ghost use Rattle.file_model.specs.Rules.{IsPatchFile};

use super::*;
use patch_file::{FileParts, write_file};
use std::alloc::Global;
use std::test::Fail;
use view_outside::MemorySink;

/// How many bytes the file of the parts has.
fn written_length(alloc: Global, parts: &FileParts, room: usize) -> Result<usize, Fail>
    requires file { IsPatchFile parts.now (file_text parts.now) }
    requires room { 1 ≤ room }
{
    let mut sink = MemorySink::with_room(alloc, room, room, Vec::new(alloc))?;
    write_file(parts, &mut sink)?;
    Ok(sink.bytes().len())
}

#[test]
fn two_columns_are_the_sample(rt: HostRuntime) -> Result<(), Fail> {
    let alloc = rt.alloc();
    let mut sink = MemorySink::with_room(alloc, 680, 680, Vec::new(alloc))?;
    write_file(&strip(alloc, 2)?, &mut sink)?;
    assert_eq!(rt; sink.bytes(), sample_files::strip().as_slice());
    Ok(())
}

#[test]
fn version_2_is_shorter(rt: HostRuntime) -> Result<(), Fail> {
    let alloc = rt.alloc();
    let parts = strip_as(alloc, 2, 2)?;
    assert_eq!(rt; written_length(alloc, &parts, 680)?, 578);
    Ok(())
}

#[test]
fn many_columns_are_written(rt: HostRuntime) -> Result<(), Fail> {
    let alloc = rt.alloc();
    let parts = strip(alloc, 256)?;
    assert_eq!(rt; written_length(alloc, &parts, 100_000)?, 99_232);
    Ok(())
}

#[test]
fn most_columns_are_written(rt: HostRuntime) -> Result<(), Fail> {
    let alloc = rt.alloc();
    let parts = strip(alloc, MOST_COLUMNS)?;
    assert_eq!(rt; written_length(alloc, &parts, 7_000_000)?, 6_356_896);
    Ok(())
}
