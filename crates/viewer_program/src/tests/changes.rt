//! Files that change between their check and a load.

use super::changing::{Change, ChangingStore};
use super::*;

// The view that shows the right column of the strip: patches 0, 4 and 5.
const RIGHT: [&str; 8] = ["full", "Q", "12", "2", "0", "3", "100", "1000"];

// The view that shows patch 1 of the square.
const FAN: [&str; 8] = ["full", "Q", "2", "2", "104", "100", "9", "100"];

// The same view, with a half-space and with a ray.
const CULLED: [&str; 12] = [
    "cull", "Q", "2", "2", "104", "100", "9", "100", "1", "0", "0", "6",
];

const PICKED: [&str; 14] = [
    "pick", "Q", "2", "2", "104", "100", "9", "100", "1", "2", "10", "0", "0", "-1",
];

// How the words end over a file whose bytes in these places become 9.
pub(super) fn end_of(
    alloc: Global,
    words: &[&str],
    bytes: &[u8],
    places: &[u64],
) -> Result<(Status, String), Fail> {
    let mut changes = Vec::new(alloc);
    for place in places {
        changes.push(Change::new(*place, 9))?;
    }
    let mut store = ChangingStore::new(bytes.to_vec(alloc)?, changes);
    run(alloc, words, &mut store, 1000)
}

// A corner of the first triangle is no point any more.
#[test]
fn a_body_of_the_square_changes(rt: HostRuntime) -> Result<(), Fail> {
    let alloc = rt.alloc();
    for (words, place, patch) in [
        (&["base", "Q"][..], 148, 0),
        (&FAN[..], 220, 1),
        (&CULLED[..], 220, 1),
        (&PICKED[..], 220, 1),
    ] {
        let (status, written) = end_of(alloc, words, &square(), &[place])?;
        let changed = Status::Changed(patch, FileFault::CornerIndex(patch, 0, 9));
        assert_eq!(rt; (status, written.as_str()), (changed, ""));
    }
    Ok(())
}

// Of two bodies of a frame that change the first in the order of the patches is named.
#[test]
fn two_bodies_of_the_strip_change(rt: HostRuntime) -> Result<(), Fail> {
    let alloc = rt.alloc();
    for (places, patch) in [(&[548, 488][..], 4), (&[488, 548][..], 4), (&[548][..], 5)] {
        let (status, written) = end_of(alloc, &RIGHT, &strip(), places)?;
        let changed = Status::Changed(patch, FileFault::CornerIndex(patch, 0, 9));
        assert_eq!(rt; (status, written.as_str()), (changed, ""));
    }
    Ok(())
}

// A body that isn't loaded again may change.
#[test]
fn a_body_outside_the_frame_changes(rt: HostRuntime) -> Result<(), Fail> {
    let alloc = rt.alloc();
    assert_eq!(rt; end_of(alloc, &RIGHT, &strip(), &[428])?.0, Status::Ok);
    let (status, written) = end_of(alloc, &["check", "Q"], &square(), &[148, 220])?;
    assert_eq!(rt; (status, written.as_str()), (Status::Ok, SQUARE_ACCEPTED));
    let sides = ["sides", "Q", "1", "0", "0", "6"];
    assert_eq!(rt;
        end_of(alloc, &sides, &square(), &[148, 220])?.0,
        Status::Ok
    );
    Ok(())
}
