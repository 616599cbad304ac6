//! The sample, and the sample with a fan that faces down.

ghost use Rattle.std.specs.Prelude.{◌≡◌, length, IfOk};
ghost use Rattle.view_outside.specs.Files.{HasFile};

use super::*;
use file_model::ReadRefusal;
use grid_vertex::{NoMemory, Point};
use patch_file::{read_body, read_index};
use std::alloc::{AllocError, Global};
use std::test::Fail;
use view_outside::{MemoryStore, NamedFile, Store};

mod strip;

/// A square over a fan of four triangles: three nodes and two patches.
fn sample() -> [u8; 244] {
    [
        66, 77, 84, 71, 1, 0, 0, 0, 3, 0, 0, 0, 2, 0, 0, 0, 2, 0, 0, 0, 2, 0, 0, 0, 0, 0, 0, 0, 8,
        0, 0, 0, 100, 0, 0, 0, 2, 0, 0, 0, 2, 0, 0, 0, 0, 0, 0, 0, 4, 0, 0, 0, 10, 0, 0, 0, 0, 0,
        0, 0, 0, 0, 0, 0, 0, 0, 0, 0, 0, 0, 0, 0, 0, 0, 0, 0, 0, 0, 0, 0, 1, 0, 0, 0, 4, 0, 2, 0,
        1, 0, 0, 0, 2, 0, 0, 0, 5, 0, 4, 0, 0, 0, 0, 0, 0, 0, 0, 0, 0, 0, 0, 0, 4, 0, 0, 0, 0, 0,
        0, 0, 0, 0, 0, 0, 4, 0, 0, 0, 4, 0, 0, 0, 0, 0, 0, 0, 0, 0, 0, 0, 4, 0, 0, 0, 0, 0, 0, 0,
        0, 0, 1, 0, 2, 0, 0, 0, 2, 0, 3, 0, 0, 0, 0, 0, 0, 0, 0, 0, 0, 0, 0, 0, 4, 0, 0, 0, 0, 0,
        0, 0, 0, 0, 0, 0, 4, 0, 0, 0, 4, 0, 0, 0, 0, 0, 0, 0, 0, 0, 0, 0, 4, 0, 0, 0, 0, 0, 0, 0,
        2, 0, 0, 0, 2, 0, 0, 0, 0, 0, 0, 0, 0, 0, 1, 0, 4, 0, 1, 0, 2, 0, 4, 0, 2, 0, 3, 0, 4, 0,
        3, 0, 0, 0, 4, 0,
    ]
}

fn store_of(alloc: Global, bytes: &[u8]) -> Result<MemoryStore, AllocError>
    ensures { IfOk result (λ store. length store.files ≡ 1) }
{
    let file = NamedFile::new(String::from_str(alloc, "Q")?, bytes.to_vec(alloc)?);
    Ok(MemoryStore::new(vec![in alloc; file]?, Vec::new(alloc), Vec::new(alloc)))
}

/// What the check of a file of two patches says, and nothing of any other.
fn verdict<S: Store>(
    alloc: Global,
    store: &mut S,
) -> Result<Option<Result<Mesh, DagFault>>, ReadRefusal>
    requires { HasFile (S.files store.old) 0 }
{
    let index = read_index(alloc, store, 0)?;
    if index.patch_count() != 2 {
        return Ok(None);
    }
    let square = read_body(alloc, &index, store, 0, 0)?;
    let fan = read_body(alloc, &index, store, 0, 1)?;
    let checker = Checker::begin(alloc, index)?;
    let checker = checker.add_body(&square)?;
    let checker = checker.add_body(&fan)?;
    Ok(Some(checker.finish()))
}

#[test]
fn the_sample_is_accepted(rt: HostRuntime) -> Result<(), Fail> {
    let alloc = rt.alloc();
    let mut store = store_of(alloc, &sample())?;
    let Some(Ok(mesh)) = verdict(alloc, &mut store)? else {
        return Err(Fail::from("refused"));
    };
    assert_eq!(rt;
        (mesh.root(), mesh.base_open(), mesh.triangle_sum()),
        (0, 4, 6)
    );
    Ok(())
}

#[test]
fn a_fan_that_faces_down_is_a_border(rt: HostRuntime) -> Result<(), Fail> {
    let alloc = rt.alloc();
    let mut bytes = sample();
    for (place, corner) in [
        (220, 1),
        (222, 0),
        (226, 2),
        (228, 1),
        (232, 3),
        (234, 2),
        (238, 0),
        (240, 3),
    ] {
        bytes[place] = corner;
    }
    let mut store = store_of(alloc, &bytes)?;
    let Some(Err(fault)) = verdict(alloc, &mut store)? else {
        return Err(Fail::from("accepted"));
    };
    let low = Point { x: 0, y: 0, z: 0 };
    let high = Point { x: 0, y: 4, z: 0 };
    assert_eq!(rt; fault, DagFault::Border(1, low, high, -1, 1));
    Ok(())
}
