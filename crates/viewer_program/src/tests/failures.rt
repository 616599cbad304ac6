//! Stores and sinks that fail.

use super::*;

// Whether each of the first calls of the store, so many, is a read fault of these words where it fails, and the
// words end well where none fails.
fn fails_in_each(alloc: Global, words: &[&str], calls: u64) -> Result<bool, Fail> {
    for call in 1..=calls {
        let mut store = store_of(alloc, &square(), &[call])?;
        let (status, written) = run(alloc, words, &mut store, 1000)?;
        if status != Status::ReadFault || !written.is_empty() {
            return Ok(false);
        }
    }
    let mut store = store_of(alloc, &square(), &[calls.saturating_add(1)])?;
    Ok(run(alloc, words, &mut store, 1000)?.0 == Status::Ok)
}

// A check looks the name up, and reads the header, the fields, both bodies and the end; a frame of one patch
// reads a body more.
#[test]
fn failing_reads(rt: HostRuntime) -> Result<(), Fail> {
    let alloc = rt.alloc();
    for (words, calls) in [
        (&["check", "Q"][..], 6),
        (&["sides", "Q", "1", "0", "0", "0"][..], 6),
        (&["base", "Q"][..], 7),
        (&["full", "Q", "2", "2", "104", "100", "9", "100"][..], 7),
    ] {
        assert!(rt; fails_in_each(alloc, words, calls)?);
    }
    Ok(())
}

#[test]
fn a_full_sink(rt: HostRuntime) -> Result<(), Fail> {
    let alloc = rt.alloc();
    let mut store = store_of(alloc, &square(), &[])?;
    let (status, written) = run(alloc, &["base", "Q"], &mut store, 10)?;
    assert_eq!(rt;
        (status, written.as_str()),
        (Status::WriteFault, "frame 0 1 ")
    );
    Ok(())
}
