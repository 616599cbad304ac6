//! Files in another version.

use super::changes::end_of;
use super::*;

#[test]
fn the_square_in_version_2(rt: HostRuntime) -> Result<(), Fail> {
    let (status, written) = run_on(rt.alloc(), &["convert", "Q", "2"], &square())?;
    assert_eq!(rt; (status, written.as_bytes()), (Status::Ok, &square_2()[..]));
    Ok(())
}

#[test]
fn the_square_back_in_version_1(rt: HostRuntime) -> Result<(), Fail> {
    let (status, written) = run_on(rt.alloc(), &["convert", "Q", "1"], &square_2())?;
    assert_eq!(rt; (status, written.as_bytes()), (Status::Ok, &square()[..]));
    Ok(())
}

// What changes of the square's bytes where the first point of both patches is (-70000, 0, 0).
const FAR: [(usize, u8); 8] = [
    (100, 0x90),
    (101, 0xEE),
    (102, 0xFE),
    (103, 0xFF),
    (160, 0x90),
    (161, 0xEE),
    (162, 0xFE),
    (163, 0xFF),
];

#[test]
fn a_patch_too_wide(rt: HostRuntime) -> Result<(), Fail> {
    let alloc = rt.alloc();
    let far = with_bytes(alloc, &square(), &FAR)?;
    let (checked, _) = run_on(alloc, &["check", "Q"], &far)?;
    assert_eq!(rt; checked, Status::Ok);
    let (status, written) = run_on(alloc, &["convert", "Q", "2"], &far)?;
    assert_eq!(rt; (status, written.as_str()), (Status::Wide(0), ""));
    Ok(())
}

#[test]
fn no_versions(rt: HostRuntime) -> Result<(), Fail> {
    let alloc = rt.alloc();
    for words in [
        &["convert", "Q"][..],
        &["convert", "Q", "3"][..],
        &["convert", "Q", "02"][..],
        &["convert", "", "2"][..],
        &["base", "Q", "2"][..],
    ] {
        let (status, written) = run_on(alloc, words, &square())?;
        assert_eq!(rt; (status, written.as_str()), (Status::Usage, ""));
    }
    Ok(())
}

// The check makes six calls, and then each body is read once more.
#[test]
fn failing_second_reads(rt: HostRuntime) -> Result<(), Fail> {
    let alloc = rt.alloc();
    for call in [7, 8] {
        let mut store = store_of(alloc, &square(), &[call])?;
        let (status, written) = run(alloc, &["convert", "Q", "2"], &mut store, 1000)?;
        assert_eq!(rt; (status, written.as_str()), (Status::ReadFault, ""));
    }
    Ok(())
}

// Of two bodies that change the first is named, also where a patch before it is too wide.
#[test]
fn changing_bodies(rt: HostRuntime) -> Result<(), Fail> {
    let alloc = rt.alloc();
    let far = with_bytes(alloc, &square(), &FAR)?;
    for (bytes, places, patch) in [
        (&square()[..], &[220, 148][..], 0),
        (far.as_slice(), &[220][..], 1),
    ] {
        let (status, written) = end_of(alloc, &["convert", "Q", "2"], bytes, places)?;
        let changed = Status::Changed(patch, FileFault::CornerIndex(patch, 0, 9));
        assert_eq!(rt; (status, written.as_str()), (changed, ""));
    }
    Ok(())
}
