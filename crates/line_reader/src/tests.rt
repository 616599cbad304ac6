//! Lines that come in pieces, lines that are too long, and sources that fail.

ghost use Rattle.std.specs.Prelude.{◌≤◌};

use super::*;
use std::alloc::{AllocError, Global};
use std::test::Fail;
use view_outside::MemorySource;

// A source of this text, which gives so many bytes at a time, with calls that fail.
fn source_of(
    alloc: Global,
    text: &[u8],
    piece: usize,
    fails: Vec<u64>,
) -> Result<MemorySource, AllocError>
    requires { 1 ≤ piece }
{
    Ok(MemorySource::new(text.to_vec(alloc)?, piece, fails))
}

#[test]
fn lines_of_any_pieces(rt: HostRuntime) -> Result<(), Fail> {
    let alloc = rt.alloc();
    for piece in 1..9 {
        let mut source = source_of(
            alloc,
            b"one\n\nthree\r\nlonger than nine\nlast",
            piece,
            Vec::new(alloc),
        )?;
        let mut reader = LineReader::new(alloc);
        assert_eq!(rt; reader.read_line(&mut source, 9).ok(), Some(LineRead::Line));
        assert_eq!(rt; reader.line(), b"one".as_slice());
        assert_eq!(rt; reader.read_line(&mut source, 9).ok(), Some(LineRead::Line));
        assert_eq!(rt; reader.line(), b"".as_slice());
        assert_eq!(rt; reader.read_line(&mut source, 9).ok(), Some(LineRead::Line));
        assert_eq!(rt; reader.line(), b"three\r".as_slice());
        assert_eq!(rt; reader.read_line(&mut source, 9).ok(), Some(LineRead::Long));
        assert_eq!(rt; reader.read_line(&mut source, 9).ok(), Some(LineRead::Line));
        assert_eq!(rt; reader.line(), b"last".as_slice());
        assert_eq!(rt; reader.read_line(&mut source, 9).ok(), Some(LineRead::End));
        assert_eq!(rt; reader.read_line(&mut source, 9).ok(), Some(LineRead::End));
    }
    Ok(())
}

#[test]
fn a_failure_within_a_line(rt: HostRuntime) -> Result<(), Fail> {
    let alloc = rt.alloc();
    let mut source = source_of(alloc, b"ab\ncd\nef", 2, vec![in alloc; 3]?)?;
    let mut reader = LineReader::new(alloc);
    assert_eq!(rt; reader.read_line(&mut source, 9).ok(), Some(LineRead::Line));
    assert_eq!(rt; reader.line(), b"ab".as_slice());
    assert_eq!(rt;
        reader.read_line(&mut source, 9).err(),
        Some(LineRefusal::ReadFault)
    );
    Ok(())
}
