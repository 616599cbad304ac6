//! How often the store behind is asked. That what is handed over is the file's, and once, the clauses say.

use super::read_at;
use crate::{Failed, MemoryStore, NamedFile, ReadAhead};
use std::alloc::Global;
use std::test::Fail;

/// A store that reads ahead in one file of 100,000 bytes; the calls of these numbers fail.
fn one_file(alloc: Global, fail_calls: Vec<u64>) -> Result<ReadAhead<MemoryStore>, Fail> {
    let file = NamedFile::new(String::new(alloc), vec![in alloc; 0; 100_000]?);
    let files = vec![in alloc; file]?;
    Ok(ReadAhead::new(alloc, MemoryStore::new(files, Vec::new(alloc), fail_calls)))
}

#[test]
fn a_run_of_small_reads_is_one_call(rt: HostRuntime) -> Result<(), Fail> {
    let alloc = rt.alloc();
    let mut store = one_file(alloc, vec![in alloc; 2]?)?;
    let mut buffer = [0; 16];
    for i in 0..4096 {
        assert_eq!(rt; read_at(&mut store, 0, 16 * i, &mut buffer), Ok(16));
    }
    assert_eq!(rt; read_at(&mut store, 0, 65_536, &mut buffer), Err(Failed));
    Ok(())
}

#[test]
fn large_reads_and_jumps_go_past_the_block(rt: HostRuntime) -> Result<(), Fail> {
    let alloc = rt.alloc();
    let mut store = one_file(alloc, vec![in alloc; 2, 4]?)?;
    let mut large = [0; 4096];
    let mut small = [0; 8];
    assert_eq!(rt; read_at(&mut store, 0, 0, &mut large), Ok(4096));
    assert_eq!(rt; read_at(&mut store, 0, 4096, &mut small), Err(Failed));
    assert_eq!(rt; read_at(&mut store, 0, 90_000, &mut small), Ok(8));
    assert_eq!(rt; read_at(&mut store, 0, 90_008, &mut small), Err(Failed));
    Ok(())
}
