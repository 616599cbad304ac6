//! Each call once, with ample memory, and the calls that are planned to fail.

ghost use Rattle.std.specs.Prelude.{◌<◌, length};

use super::*;
use std::fs;
use std::io::{self, ErrorKind, Read, Write};
use std::test::Fail;

mod ahead;

fn find<S: Store>(store: &mut S, name: &str) -> Result<u32, Failed> {
    store.find(name)
}

fn read_at<S: Store>(
    store: &mut S,
    file: u32,
    offset: u64,
    buffer: &mut [u8],
) -> Result<usize, Failed> {
    store.read_at(file, offset, buffer)
}

fn read<S: Source>(source: &mut S, buffer: &mut [u8]) -> Result<usize, Failed>
    requires { 0 < length buffer.old }
{
    source.read(buffer)
}

fn write<S: Sink>(sink: &mut S, piece: &[u8]) -> Result<usize, Failed>
    requires { 0 < length piece.now }
{
    sink.write(piece)
}

fn pass<G: Gate + Sync>(gate: &G, point: GatePoint) {
    gate.pass(point);
}

#[test]
fn a_store_in_memory(rt: HostRuntime) -> Result<(), Fail> {
    let alloc = rt.alloc();
    let file = NamedFile::new(
        String::from_str(alloc, "a")?,
        [1, 2, 3, 4, 5].to_vec(alloc)?,
    );
    let mut store = MemoryStore::new(
        vec![in alloc; file]?,
        vec![in alloc; (2, 2)]?,
        vec![in alloc; 3]?,
    );
    let mut buffer = [0; 4];
    assert_eq!(rt; find(&mut store, "a"), Ok(0));
    assert_eq!(rt; read_at(&mut store, 0, 2, &mut buffer), Ok(3));
    assert_eq!(rt; buffer, [3, 4, 5, 0]);
    assert_eq!(rt; find(&mut store, "a"), Err(Failed), "the third call");
    assert_eq!(rt;
        read_at(&mut store, 0, 2, &mut buffer),
        Err(Failed),
        "the second read at 2"
    );
    assert_eq!(rt; read_at(&mut store, 0, 2, &mut buffer), Ok(3));
    assert_eq!(rt; read_at(&mut store, 0, 5, &mut buffer), Ok(0));
    assert_eq!(rt; find(&mut store, "b"), Err(Failed));
    assert_eq!(rt; read_at(&mut store, 1, 0, &mut buffer), Err(Failed));
    assert_eq!(rt; store.taken(), 6);
    Ok(())
}

#[test]
fn a_source_in_memory(rt: HostRuntime) -> Result<(), Fail> {
    let alloc = rt.alloc();
    let bytes = b"hello".to_vec(alloc)?;
    let mut source = MemorySource::new(bytes, 2, vec![in alloc; 2]?);
    let mut buffer = [0; 4];
    assert_eq!(rt; read(&mut source, &mut buffer), Ok(2));
    assert_eq!(rt; buffer, *b"he\0\0");
    assert_eq!(rt;
        read(&mut source, &mut buffer),
        Err(Failed),
        "the second call"
    );
    assert_eq!(rt; read(&mut source, &mut buffer), Ok(2));
    assert_eq!(rt; buffer, *b"ll\0\0");
    assert_eq!(rt; read(&mut source, &mut buffer), Ok(1));
    assert_eq!(rt; read(&mut source, &mut buffer), Ok(0));
    Ok(())
}

#[test]
fn a_sink_in_memory(rt: HostRuntime) -> Result<(), Fail> {
    let alloc = rt.alloc();
    let mut sink = MemorySink::with_room(alloc, 5, 3, vec![in alloc; 2]?)?;
    assert_eq!(rt; write(&mut sink, b"abcd"), Ok(3));
    assert_eq!(rt; write(&mut sink, b"d"), Err(Failed), "the second call");
    assert_eq!(rt; write(&mut sink, b"def"), Ok(2));
    assert_eq!(rt; write(&mut sink, b"f"), Err(Failed), "the room is full");
    assert_eq!(rt; sink.bytes(), b"abcde".as_slice());
    assert_eq!(rt; sink.into_bytes().as_slice(), b"abcde".as_slice());
    Ok(())
}

#[test]
fn a_store_over_files(rt: HostRuntime) -> Result<(), Fail> {
    for name in ["first", "second", "third"] {
        fs::write(&rt, name, name)?;
    }
    let mut store = FolderStore::new(&rt, rt.alloc())?;
    let mut buffer = [0; 4];
    assert_eq!(rt; find(&mut store, "missing"), Err(Failed));
    assert_eq!(rt; find(&mut store, "first"), Ok(0));
    assert_eq!(rt; find(&mut store, "second"), Ok(1));
    assert_eq!(rt; find(&mut store, "first"), Ok(0));
    assert_eq!(rt;
        find(&mut store, "third"),
        Err(Failed),
        "only two are opened"
    );
    assert_eq!(rt; read_at(&mut store, 1, 2, &mut buffer), Ok(4));
    assert_eq!(rt; buffer, *b"cond");
    assert_eq!(rt; read_at(&mut store, 0, 5, &mut buffer), Ok(0));
    assert_eq!(rt; read_at(&mut store, 2, 0, &mut buffer), Err(Failed));
    Ok(())
}

#[test]
fn a_source_over_a_reader(rt: HostRuntime) {
    let reader = b"hello".as_slice();
    let mut source = StdSource::new(reader);
    let mut buffer = [0; 4];
    assert_eq!(rt; read(&mut source, &mut buffer), Ok(4));
    assert_eq!(rt; buffer, *b"hell");
    assert_eq!(rt; read(&mut source, &mut buffer), Ok(1));
    assert_eq!(rt; read(&mut source, &mut buffer), Ok(0));
}

#[test]
fn a_sink_over_a_writer(rt: HostRuntime) {
    let mut bytes = Vec::new(rt.alloc());
    let mut sink = StdSink::new(&mut bytes);
    assert_eq!(rt; write(&mut sink, b"hello"), Ok(5));
    assert_eq!(rt; bytes.as_slice(), b"hello".as_slice());
}

#[test]
fn a_sink_over_a_writer_with_no_room(rt: HostRuntime) {
    let mut room = [0; 2];
    let mut sink = StdSink::new(room.as_mut_slice());
    assert_eq!(rt; write(&mut sink, b"abc"), Ok(2));
    assert_eq!(rt; write(&mut sink, b"c"), Err(Failed));
}

/// A device that the system interrupts so many times. A read gives one byte, and a write takes one.
#[derive(Drop)]
struct InterruptedDevice {
    interruptions: u32,
}

impl InterruptedDevice {
    fn call(&mut self) -> io::Result<()> {
        if self.interruptions == 0 {
            return Ok(());
        }
        self.interruptions -= 1;
        Err(io::Error::from(ErrorKind::Interrupted))
    }
}

impl Read for InterruptedDevice {
    fn read(&mut self, buffer: &mut [u8]) -> io::Result<usize> {
        self.call()?;
        let Some(first) = buffer.first_mut() else {
            return Ok(0);
        };
        *first = b'a';
        Ok(1)
    }
}

impl Write for InterruptedDevice {
    fn write(&mut self, piece: &[u8]) -> io::Result<usize> {
        self.call()?;
        Ok(piece.len().min(1))
    }

    fn flush(&mut self) -> io::Result<()> {
        Ok(())
    }
}

#[test]
fn an_interrupted_read_is_made_again(rt: HostRuntime) {
    let mut buffer = [0; 4];
    let mut source = StdSource::new(InterruptedDevice { interruptions: 16 });
    assert_eq!(rt; read(&mut source, &mut buffer), Ok(1));
    assert_eq!(rt; buffer, *b"a\0\0\0");
    let mut source = StdSource::new(InterruptedDevice { interruptions: 17 });
    assert_eq!(rt; read(&mut source, &mut buffer), Err(Failed));
}

#[test]
fn an_interrupted_write_is_made_again(rt: HostRuntime) {
    let mut sink = StdSink::new(InterruptedDevice { interruptions: 16 });
    assert_eq!(rt; write(&mut sink, b"abc"), Ok(1));
    let mut sink = StdSink::new(InterruptedDevice { interruptions: 17 });
    assert_eq!(rt; write(&mut sink, b"abc"), Err(Failed));
}

#[test]
fn gates_hold_for_so_many_turns(rt: HostRuntime) {
    pass(&OpenGate, GatePoint::LockTry(1));
    let gate = HoldGate::new(GatePoint::LockTry(1), GatePoint::TierTurn(0), 3);
    pass(&gate, GatePoint::LockTry(2));
    pass(&gate, GatePoint::TierTurn(1));
    assert_eq!(rt; gate.late(), false, "nobody was held");
    pass(&gate, GatePoint::TierTurn(0));
    pass(&gate, GatePoint::LockTry(1));
    assert_eq!(rt; gate.late(), false, "the other place was passed");
    let gate = HoldGate::new(GatePoint::FrameDone(1), GatePoint::FrameDone(2), 3);
    pass(&gate, GatePoint::FrameDone(1));
    assert_eq!(rt; gate.late(), true, "the turns ran out");
}
