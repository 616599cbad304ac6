//! A machine over the square that is driven, and what it answers.

ghost use Rattle.std.specs.Prelude.{◌≡◌, length, IfOk};

use accepted_mesh::Mesh;
use live_machine::{DriveRefusal, drive};
use mesh_graph::MeshGraph;
use patch_file::read_index;
use sample_files::square;
use std::alloc::Global;
use std::test::Fail;
use view_machine::Machine;
use view_outside::{MemorySink, MemorySource, MemoryStore, NamedFile};

// A store of the square's file.
fn square_store(alloc: Global) -> Result<MemoryStore, Fail>
    ensures { IfOk result (λ store. length store.files ≡ 1) }
{
    let file = NamedFile::new(String::from_str(alloc, "Q")?, square().to_vec(alloc)?);
    Ok(MemoryStore::new(vec![in alloc; file]?, Vec::new(alloc), Vec::new(alloc)))
}

fn square_mesh(alloc: Global) -> Result<Mesh, Fail> {
    let mut store = square_store(alloc)?;
    let index = read_index(alloc, &mut store, 0)?;
    let _patches = index.patch_count();
    let graph = MeshGraph::of(alloc, index.nodes(), index.fields())?;
    match graph.verdict() {
        Ok(root) => Ok(Mesh::with(index, graph, root, 0)),
        Err(_) => Err(Fail::from("no root")),
    }
}

// Drives a machine over the square with one tier of 144 bytes, from a source that gives 5 bytes at a time and whose
// calls of these numbers fail, to a sink of this room that takes 7 at a time. Gives why driving stopped, and what was
// written.
fn driven(
    alloc: Global,
    text: Vec<u8>,
    fail_calls: Vec<u64>,
    room: usize,
) -> Result<(Option<DriveRefusal>, Vec<u8>), Fail> {
    let mesh = square_mesh(alloc)?;
    let mut store = square_store(alloc)?;
    let mut source = MemorySource::new(text, 5, fail_calls);
    let mut sink = MemorySink::with_room(alloc, room, 7, Vec::new(alloc))?;
    let Ok(mut machine) = Machine::start(alloc, &mesh, &[144], &mut store, 0) else {
        return Err(Fail::from("no start"));
    };
    let refusal = drive(alloc, &mut machine, &mut source, &mut sink).err();
    Ok((refusal, sink.into_bytes()))
}

const FIRST_LINES: &str = "\
open 1
view 1 2 2 104 100 9 100

opens 1
frame 1
turn 0
turns 9
open 2
view 2 2 2 104 100 9 100
settle
step 2
show 2
body 1
body 7
";

const LAST_LINES: &str = "
free 2
close 2
close 1
status";

const FIRST_ANSWERS: &str = "\
open 1
view 1
refused 42
frame 1 1 nodes 1 patches 1 triangles 2 open 4
cut 0
tries 1:0
patches 0
0 0 0 4 0 0 4 4 0
0 0 0 4 4 0 0 4 0
turn 0 reserve 1
turn 0 got 1
turn 0 commit 1
turn 0 idle
end
open 2
view 2
turn 0 idle
step 2 try 1 1
show 2 1 nodes 2 patches 1 triangles 4
cut 0 1
tries 1:1
patches 1
body 1 84
";

const LAST_ANSWERS: &str = "
refused 47
refused 40
free 2 1
close 2 0
close 1 0
tier 0 budget 144 load 144 held 2 coming
";

// The text of these pieces, one after the other.
fn joined(alloc: Global, pieces: &[&[u8]]) -> Result<Vec<u8>, Fail> {
    let mut text = Vec::new(alloc);
    for piece in pieces {
        text.extend_from_slice(piece)?;
    }
    Ok(text)
}

#[test]
fn each_order_is_answered(rt: HostRuntime) -> Result<(), Fail> {
    let alloc = rt.alloc();
    let long = [b'a'; 4_097];
    let lines = joined(
        alloc,
        &[FIRST_LINES.as_bytes(), &long, LAST_LINES.as_bytes()],
    )?;
    let (refusal, written) = driven(alloc, lines, Vec::new(alloc), 2_000)?;
    let body = &square()[160..];
    let wanted = joined(
        alloc,
        &[FIRST_ANSWERS.as_bytes(), body, LAST_ANSWERS.as_bytes()],
    )?;
    assert_eq!(rt; refusal, None);
    assert_eq!(rt; written.as_slice(), wanted.as_slice());
    Ok(())
}

#[test]
fn a_sink_that_fails_in_an_answer(rt: HostRuntime) -> Result<(), Fail> {
    let alloc = rt.alloc();
    let lines = b"open 1\nopen 2\nopen 3\n".to_vec(alloc)?;
    let (refusal, written) = driven(alloc, lines, Vec::new(alloc), 10)?;
    assert_eq!(rt; refusal, Some(DriveRefusal::WriteFault));
    assert_eq!(rt; written.as_slice(), b"open 1\nope".as_slice());
    Ok(())
}

// The third read is within the second line.
#[test]
fn a_source_that_fails_in_a_line(rt: HostRuntime) -> Result<(), Fail> {
    let alloc = rt.alloc();
    let lines = b"open 1\nopen 2\nopen 3\n".to_vec(alloc)?;
    let (refusal, written) = driven(alloc, lines, vec![in alloc; 3]?, 100)?;
    assert_eq!(rt; refusal, Some(DriveRefusal::ReadFault));
    assert_eq!(rt; written.as_slice(), b"open 1\n".as_slice());
    Ok(())
}
