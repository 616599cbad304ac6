//! Plays in which a call of the store, the sink or the source fails.

use super::*;

const AGAIN: &str = "\
open 1
view 1 2 2 104 100 9 100
settle
frame 1
view 1 2 2 104 100 9 100
settle
frame 1
";

const FAULTED: [&str; 6] = [
    VIEWED,
    "turn 0 reserve 1\nturn 0 fault 1\nturn 0 idle\n",
    BASE_1,
    "view 1\n",
    LOADED,
    FAN_2,
];

const UNFAULTED: [&str; 5] = [VIEWED, LOADED, FAN_1, "view 1\nturn 0 idle\n", FAN_2];

// The check reads there first, the fetch second.
#[test]
fn a_fetch_fails(rt: HostRuntime) -> Result<(), Fail> {
    let alloc = rt.alloc();
    let mut store = store_with(alloc, &square(), &[(160, 2)], &[])?;
    let (status, written) = run_script(alloc, &["play", "Q", "144"], &mut store, AGAIN, 2000)?;
    assert_eq!(rt; (status, written), (Status::Ok, joined(alloc, &FAULTED)?));
    Ok(())
}

// How a run ends in which a call of the store fails.
#[derive(Clone, Copy, Debug, PartialEq, Eq, PartialOrd, Ord)]
enum Ending {
    Refused,
    Faulted,
    Unfaulted,
    Other,
}

// How the run ends whose call of this number fails.
fn ending_with(alloc: Global, call: u64) -> Result<Ending, Fail> {
    let mut store = store_of(alloc, &square(), &[call])?;
    let (status, written) = run_script(alloc, &["play", "Q", "144"], &mut store, AGAIN, 2000)?;
    if status == Status::ReadFault && written.is_empty() {
        return Ok(Ending::Refused);
    }
    if status == Status::Ok && written == joined(alloc, &FAULTED)? {
        return Ok(Ending::Faulted);
    }
    if status == Status::Ok && written == joined(alloc, &UNFAULTED)? {
        return Ok(Ending::Unfaulted);
    }
    Ok(Ending::Other)
}

#[test]
fn each_call_of_the_store_fails(rt: HostRuntime) -> Result<(), Fail> {
    let alloc = rt.alloc();
    let mut endings = Vec::new(alloc);
    for call in 1..=20 {
        let ending = ending_with(alloc, call)?;
        if endings.last() != Some(&ending) {
            endings.push(ending)?;
        }
    }
    assert_eq!(rt;
        endings.as_slice(),
        &[Ending::Refused, Ending::Faulted, Ending::Unfaulted][..]
    );
    Ok(())
}

// What is written of the square's script to a sink whose call of this number fails.
fn written_until(alloc: Global, call: u64) -> Result<(Status, Vec<u8>), Fail> {
    let words = owned_words(alloc, &["play", "Q", "144"])?;
    let mut store = store_of(alloc, &square(), &[])?;
    let mut source = MemorySource::new(FRAMED.as_bytes().to_vec(alloc)?, 7, Vec::new(alloc));
    let mut sink = MemorySink::with_room(alloc, 2000, 1, vec![in alloc; call]?)?;
    let status = run_still(alloc, &words, &mut store, &mut source, &mut sink);
    Ok((status, sink.into_bytes()))
}

#[test]
fn each_byte_of_the_text_fails(rt: HostRuntime) -> Result<(), Fail> {
    let alloc = rt.alloc();
    let text = joined(alloc, &[VIEWED, BASE_1, LOADED, FAN_2])?;
    for (call, place) in (1..).zip(0..text.len()) {
        let (status, written) = written_until(alloc, call)?;
        assert_eq!(rt; status, Status::WriteFault);
        assert_eq!(rt; Some(written.as_slice()), text.as_bytes().get(..place));
    }
    Ok(())
}

// The status and the text of the square's script from a source whose call of this number fails.
fn played_from(alloc: Global, call: u64) -> Result<(Status, Vec<u8>), Fail> {
    let words = owned_words(alloc, &["play", "Q", "144"])?;
    let mut store = store_of(alloc, &square(), &[])?;
    let bytes = FRAMED.as_bytes().to_vec(alloc)?;
    let mut source = MemorySource::new(bytes, 1, vec![in alloc; call]?);
    let mut sink = MemorySink::with_room(alloc, 2000, 7, Vec::new(alloc))?;
    let status = run_still(alloc, &words, &mut store, &mut source, &mut sink);
    Ok((status, sink.into_bytes()))
}

#[test]
fn each_byte_of_the_script_fails(rt: HostRuntime) -> Result<(), Fail> {
    let alloc = rt.alloc();
    let calls = FRAMED.len() as u64 + 1;
    for call in 1..=calls {
        let (status, written) = played_from(alloc, call)?;
        assert_eq!(rt; (status, written.is_empty()), (Status::ReadFault, true));
    }
    let (status, written) = played_from(alloc, calls + 1)?;
    let text = joined(alloc, &[VIEWED, BASE_1, LOADED, FAN_2])?;
    assert_eq!(rt; (status, written.as_slice()), (Status::Ok, text.as_bytes()));
    Ok(())
}
