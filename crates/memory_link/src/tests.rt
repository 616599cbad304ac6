//! A file of 3,000 bytes, read through links that lose and repeat.

ghost use Rattle.std.specs.Prelude.{◌≡◌, ◌<◌, length, IfOk};

use super::*;
use grid_vertex::NoMemory;
use patch_link::LinkStore;
use std::alloc::Global;
use std::process::Abort;
use std::test::Fail;
use view_outside::{Failed, MemoryStore, NamedFile, Store};

mod disorder;

/// The byte at this place of the file.
fn byte_at(place: usize) -> u8 {
    (place % 251) as u8
}

/// A store with one file, Q.
fn far_store(alloc: Global) -> Result<MemoryStore, Fail> {
    let mut bytes = Vec::new(alloc);
    for place in 0..3000 {
        bytes.push(byte_at(place))?;
    }
    let file = NamedFile::new(String::from_str(alloc, "Q")?, bytes);
    Ok(MemoryStore::new(vec![in alloc; file]?, Vec::new(alloc), Vec::new(alloc)))
}

/// The store behind a link that loses and repeats so.
fn over<'a>(
    alloc: Global,
    store: &'a mut MemoryStore,
    lose: u32,
    repeat: u32,
) -> Result<LinkStore<MemoryLink<'a, MemoryStore>>, NoMemory> {
    let link = MemoryLink::new(alloc, Answerer::new(store), lose, repeat)?;
    LinkStore::new(alloc, link)
}

/// These are the file's bytes from this place on.
fn are_from(bytes: &[u8], from: usize) -> bool
    requires { from < 4096 }
{
    for (i, byte) in bytes.iter().enumerate() {
        if *byte != byte_at(from.saturating_add(i)) {
            return false;
        }
    }
    true
}

/// A read from this place on gives so many of the file's bytes as the buffer has.
fn fills<S: Store>(store: &mut S, file: u32, from: usize, buffer: &mut [u8]) -> bool
    requires { from < 4096 }
{
    let size = buffer.len();
    store.read_at(file, from as u64, buffer) == Ok(size) && are_from(buffer, from)
}

/// The file is found, 20 bytes and then 1,000 are read from place 16 on, and none at its end.
fn reads_all<S: Store>(store: &mut S) -> bool {
    let mut few = [0; 20];
    let mut many = [0; 1000];
    match store.find("Q") {
        Ok(file) => {
            fills(store, file, 16, &mut few)
                && fills(store, file, 16, &mut many)
                && store.read_at(file, 3000, &mut few) == Ok(0)
        }
        Err(_) => false,
    }
}

/// Where the link loses and repeats so, all is read, for which the far store hands over so many bytes.
fn expect_reads(
    rt: &impl Abort,
    alloc: Global,
    lose: u32,
    repeat: u32,
    taken: u128,
) -> Result<(), Fail> {
    let mut store = far_store(alloc)?;
    let mut link = over(alloc, &mut store, lose, repeat)?;
    assert!(rt; reads_all(&mut link));
    drop(link);
    assert_eq!(rt; store.taken(), taken);
    Ok(())
}

/// Where the link loses so, nothing is found.
fn expect_nothing(rt: &impl Abort, alloc: Global, lose: u32) -> Result<(), Fail> {
    let mut store = far_store(alloc)?;
    let mut link = over(alloc, &mut store, lose, 0)?;
    assert_eq!(rt; find_far(&mut link, "Q"), Err(Failed));
    Ok(())
}

#[test]
fn nothing_is_lost(rt: HostRuntime) -> Result<(), Fail> {
    expect_reads(&rt, rt.alloc(), 0, 0, 1020)
}

#[test]
fn each_third_is_lost(rt: HostRuntime) -> Result<(), Fail> {
    expect_reads(&rt, rt.alloc(), 3, 0, 1020)
}

#[test]
fn each_third_is_lost_and_each_answer_comes_twice(rt: HostRuntime) -> Result<(), Fail> {
    expect_reads(&rt, rt.alloc(), 3, 1, 1020)
}

#[test]
fn each_fourth_is_lost(rt: HostRuntime) -> Result<(), Fail> {
    expect_reads(&rt, rt.alloc(), 4, 0, 2040)
}

#[test]
fn each_is_lost(rt: HostRuntime) -> Result<(), Fail> {
    expect_nothing(&rt, rt.alloc(), 1)
}

#[test]
fn each_second_is_lost(rt: HostRuntime) -> Result<(), Fail> {
    expect_nothing(&rt, rt.alloc(), 2)
}

#[test]
fn another_name(rt: HostRuntime) -> Result<(), Fail> {
    let alloc = rt.alloc();
    let mut store = far_store(alloc)?;
    let mut link = over(alloc, &mut store, 0, 0)?;
    assert_eq!(rt; find_far(&mut link, "R"), Err(Failed));
    assert_eq!(rt; find_far(&mut link, ""), Err(Failed));
    Ok(())
}
