//! The line and the code of each status.

use super::*;

// How the status is told: its line and its code.
fn told(alloc: Global, status: &Status) -> Result<(String, u8), Fail> {
    let mut sink = MemorySink::with_room(alloc, 100, 7, Vec::new(alloc))?;
    let code = tell(alloc, status, &mut sink);
    match String::from_utf8(sink.into_bytes()) {
        Ok(line) => Ok((line, code)),
        Err(_) => Err(Fail::from("a status is no text")),
    }
}

const BORDER: DagFault = DagFault::Border(
    1,
    Point { x: 0, y: 0, z: 0 },
    Point { x: 0, y: 4, z: 0 },
    -1,
    1,
);

#[test]
fn lines_of_refusals(rt: HostRuntime) -> Result<(), Fail> {
    let alloc = rt.alloc();
    for (refusal, line) in [
        (Refusal::File(FileFault::Truncated(0)), "file 6 0\n"),
        (
            Refusal::File(FileFault::CornerIndex(1, 3, 5)),
            "file 12 1 3 5\n",
        ),
        (Refusal::Dag(BORDER), "file 25 1 0 0 0 0 4 0 -1 1\n"),
    ] {
        let (told, code) = told(alloc, &Status::Refused(refusal))?;
        assert_eq!(rt; (told.as_str(), code), (line, 3));
    }
    Ok(())
}

#[test]
fn lines_of_statuses(rt: HostRuntime) -> Result<(), Fail> {
    let alloc = rt.alloc();
    let budget = Status::Budget {
        need: 60,
        given: 59,
    };
    let changed = Status::Changed(0, FileFault::CornerIndex(0, 0, 9));
    for (status, line, code) in [
        (Status::Ok, "", 0),
        (Status::Usage, "usage\n", 2),
        (Status::ReadFault, "read fault\n", 4),
        (Status::WriteFault, "write fault\n", 5),
        (Status::Script(ScriptFault::NoView(2)), "script 48 2\n", 6),
        (budget, "budget 60 59\n", 7),
        (Status::Memory, "memory\n", 8),
        (changed, "changed 0 12 0 0 9\n", 9),
        (Status::Wide(4), "wide 4\n", 10),
    ] {
        let told = told(alloc, &status)?;
        assert_eq!(rt; (told.0.as_str(), told.1), (line, code));
    }
    Ok(())
}

// An empty file, as the program tells it.
#[test]
fn an_empty_file_is_told(rt: HostRuntime) -> Result<(), Fail> {
    let alloc = rt.alloc();
    let (status, _) = run_on(alloc, &["check", "Q"], &[])?;
    let (line, code) = told(alloc, &status)?;
    assert_eq!(rt; (line.as_str(), code), ("file 6 0\n", 3));
    Ok(())
}
