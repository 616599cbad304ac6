//! Strips that are made, and bench runs over them.

use super::*;

// What the words write, and their status, over a store without a file.
fn made(alloc: Global, words: &[&str], room: usize) -> Result<(Status, Vec<u8>), Fail> {
    let owned = owned_words(alloc, words)?;
    let mut store = MemoryStore::new(Vec::new(alloc), Vec::new(alloc), Vec::new(alloc));
    let mut script = MemorySource::new(Vec::new(alloc), 1, Vec::new(alloc));
    let mut sink = MemorySink::with_room(alloc, room, 4096, Vec::new(alloc))?;
    let status = run_still(alloc, &owned, &mut store, &mut script, &mut sink);
    Ok((status, sink.bytes().to_vec(alloc)?))
}

#[test]
fn two_columns_are_the_sample(rt: HostRuntime) -> Result<(), Fail> {
    let (status, bytes) = made(rt.alloc(), &["make", "2"], 680)?;
    assert_eq!(rt; status, Status::Ok);
    assert_eq!(rt; bytes.as_slice(), strip().as_slice());
    Ok(())
}

#[test]
fn a_sink_without_room(rt: HostRuntime) -> Result<(), Fail> {
    let (status, bytes) = made(rt.alloc(), &["make", "2"], 679)?;
    assert_eq!(rt; status, Status::WriteFault);
    assert!(rt; bytes.len() <= 679);
    Ok(())
}

#[test]
fn a_bench_of_two_columns(rt: HostRuntime) -> Result<(), Fail> {
    let (status, text) = made(rt.alloc(), &["bench", "2"], 1000)?;
    assert_eq!(rt; status, Status::Ok);
    let summary =
        b"bench 2\nfile 680 nodes 5 patches 7\nbase patches 2 triangles 4 open 6\nsettle 16\n\
        frame nodes 4 patches 3 triangles 10 open 6\n";
    assert_eq!(rt; text.as_slice(), summary.as_slice());
    Ok(())
}

#[test]
fn a_bench_of_the_most_columns(rt: HostRuntime) -> Result<(), Fail> {
    let (status, text) = made(rt.alloc(), &["bench", "16384"], 1000)?;
    assert_eq!(rt; status, Status::Ok);
    let summary = b"bench 16384\nfile 6356896 nodes 32769 patches 65535\n\
        base patches 16384 triangles 32768 open 32770\nsettle 147454\n\
        frame nodes 32768 patches 16385 triangles 98302 open 32770\n";
    assert_eq!(rt; text.as_slice(), summary.as_slice());
    Ok(())
}

#[test]
fn no_strips(rt: HostRuntime) -> Result<(), Fail> {
    for columns in ["0", "1", "3", "16386", "02", "-2", ""] {
        let (status, bytes) = made(rt.alloc(), &["make", columns], 680)?;
        assert_eq!(rt; (status, bytes.len()), (Status::Usage, 0));
    }
    Ok(())
}
