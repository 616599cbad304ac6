//! The sample file read from a store, whole, cut off, changed, and byte by byte.

ghost use Rattle.std.specs.Prelude.{◌≡◌, length, None, IfOk};
ghost use Rattle.view_outside.specs.Files.{HasFile};

use super::{sample, sample_2};
use crate::{Body, FileFault, PatchField, ReadRefusal, read_body, read_end, read_index};
use grid_vertex::{Point, Triangle};
use std::alloc::{AllocError, Global};
use std::test::Fail;
use view_outside::{Failed, MemoryStore, NamedFile, Store};

/// A store of one file, of which it tells nothing. It gives a byte at a time, and fails after so many reads.
#[derive(Drop)]
struct ByteStore {
    bytes: Vec<u8>,
    reads: u64,
    faults: u64,
    taken: u128,
}

impl Store for ByteStore {
    ghost files = { λ _. None };

    ghost faults = { λ store. store.faults };

    ghost taken = { λ store. store.taken };

    fn find(&mut self, _name: &str) -> Result<u32, Failed> {
        Ok(0)
    }

    fn read_at(&mut self, _file: u32, offset: u64, buffer: &mut [u8]) -> Result<usize, Failed> {
        if self.reads == 0 {
            self.faults = self.faults.saturating_add(1);
            return Err(Failed);
        }
        self.reads -= 1;
        let Some(byte) = self.bytes.get(offset as usize) else {
            return Ok(0);
        };
        let Some(first) = buffer.first_mut() else {
            return Ok(0);
        };
        *first = *byte;
        self.taken = self.taken.saturating_add(1);
        Ok(1)
    }
}

/// Reads the file of number 0 whole.
fn read_all<S: Store>(alloc: Global, store: &mut S) -> Result<Vec<Body>, ReadRefusal>
    requires { HasFile (S.files store.old) 0 }
{
    let index = read_index(alloc, store, 0)?;
    let mut bodies = Vec::new(alloc);
    for patch in 0..index.patch_count() {
        bodies.push(read_body(alloc, &index, store, 0, patch)?)?;
    }
    read_end(&index, store, 0)?;
    Ok(bodies)
}

fn store_of(
    alloc: Global,
    bytes: &[u8],
    fail_reads: &[(u64, u32)],
) -> Result<MemoryStore, AllocError>
    ensures { IfOk result (λ store. length store.files ≡ 1) }
{
    let file = NamedFile::new(String::from_str(alloc, "Q")?, bytes.to_vec(alloc)?);
    Ok(MemoryStore::new(
        vec![in alloc; file]?,
        fail_reads.to_vec(alloc)?,
        Vec::new(alloc),
    ))
}

#[test]
fn reads_the_sample(rt: HostRuntime) -> Result<(), Fail> {
    let alloc = rt.alloc();
    let mut store = store_of(alloc, &sample(), &[])?;
    let index = read_index(alloc, &mut store, 0)?;
    assert_eq!(rt;
        (index.version(), index.node_count(), index.patch_count()),
        (1, 3, 2)
    );
    assert_eq!(rt; index.node(1).error, 10);
    assert_eq!(rt;
        index.patch(1),
        PatchField {
            tail: 1,
            head: 2,
            points: 5,
            triangles: 4
        }
    );
    assert_eq!(rt; (index.body_offset(0), index.body_offset(1)), (100, 160));
    assert_eq!(rt;
        (index.body_size(0), index.body_size(1), index.file_length()),
        (60, 84, 244)
    );
    let body = read_body(alloc, &index, &mut store, 0, 1)?;
    assert_eq!(rt;
        (body.patch(), body.point_count(), body.triangle_count()),
        (1, 5, 4)
    );
    assert_eq!(rt; body.point(4), Point { x: 2, y: 2, z: 0 });
    assert_eq!(rt; body.corners(3), [3, 0, 4]);
    assert_eq!(rt; store.taken(), 184);
    read_end(&index, &mut store, 0)?;
    assert_eq!(rt; store.taken(), 184);
    Ok(())
}

#[test]
fn reads_version_2(rt: HostRuntime) -> Result<(), Fail> {
    let alloc = rt.alloc();
    let mut store = store_of(alloc, &sample_2(), &[])?;
    let index = read_index(alloc, &mut store, 0)?;
    assert_eq!(rt; (index.version(), index.patch_count()), (2, 2));
    assert_eq!(rt;
        (index.body_size(0), index.body_size(1), index.file_length()),
        (48, 66, 214)
    );
    let body = read_body(alloc, &index, &mut store, 0, 0)?;
    assert_eq!(rt; body.triangle_count(), 2);
    assert_eq!(rt;
        body.triangle(1),
        Triangle {
            a: Point { x: 0, y: 0, z: 0 },
            b: Point { x: 4, y: 4, z: 0 },
            c: Point { x: 0, y: 4, z: 0 },
        }
    );
    Ok(())
}

#[test]
fn a_front_is_truncated(rt: HostRuntime) -> Result<(), Fail> {
    let alloc = rt.alloc();
    let sample = sample();
    for len in 0..sample.len() {
        let mut store = store_of(alloc, &sample[..len], &[])?;
        let refusal = read_all(alloc, &mut store).err();
        assert_eq!(rt;
            refusal,
            Some(ReadRefusal::File(FileFault::Truncated(len as u64)))
        );
    }
    Ok(())
}

#[test]
fn more_is_trailing(rt: HostRuntime) -> Result<(), Fail> {
    let alloc = rt.alloc();
    let mut bytes = sample().to_vec(alloc)?;
    bytes.push(0)?;
    let mut store = store_of(alloc, &bytes, &[])?;
    let refusal = read_all(alloc, &mut store).err();
    assert_eq!(rt; refusal, Some(ReadRefusal::File(FileFault::Trailing(245))));
    Ok(())
}

#[test]
fn no_offset_0_is_loose(rt: HostRuntime) -> Result<(), Fail> {
    let alloc = rt.alloc();
    let mut bytes = sample_2();
    for (place, y) in [(114, 1), (120, 1), (126, 5), (132, 5)] {
        bytes[place] = y;
    }
    let mut store = store_of(alloc, &bytes, &[])?;
    let refusal = read_all(alloc, &mut store).err();
    assert_eq!(rt; refusal, Some(ReadRefusal::File(FileFault::Loose(0, 1))));
    Ok(())
}

#[test]
fn a_body_is_read_at_its_offset(rt: HostRuntime) -> Result<(), Fail> {
    let alloc = rt.alloc();
    let mut store = store_of(alloc, &sample(), &[(160, 1)])?;
    assert_eq!(rt;
        read_all(alloc, &mut store).err(),
        Some(ReadRefusal::ReadFault)
    );
    assert_eq!(rt; store.taken(), 160);
    Ok(())
}

#[test]
fn reads_byte_by_byte(rt: HostRuntime) -> Result<(), Fail> {
    let alloc = rt.alloc();
    for reads in 0..246 {
        let mut store = ByteStore {
            bytes: sample().to_vec(alloc)?,
            reads,
            faults: 0,
            taken: 0,
        };
        let refusal = read_all(alloc, &mut store).err();
        let wanted = if reads < 245 {
            Some(ReadRefusal::ReadFault)
        } else {
            None
        };
        assert_eq!(rt; refusal, wanted);
    }
    Ok(())
}
