//! Frames of views.

use super::*;

const END_OF_CHAIN: &str =
    "frame 0 1 nodes 3 patches 1 triangles 2 open 4\ncut 0 1 2\ntries 1:1 2:1\npatches 2\n0 0 0 4 0 0 4 4 0\n0 0 0 4 4 0 0 4 0\n";

pub(super) const RIGHT_COLUMN: &str = "\
frame 0 1 nodes 2 patches 3 triangles 6 open 6
cut 0 2
tries 4:1 5:1
patches 0 4 5
0 0 0 4 0 0 4 4 0
0 0 0 4 4 0 0 4 0
4 4 0 4 0 0 6 2 0
4 0 0 8 0 0 6 2 0
8 0 0 8 4 0 6 2 0
8 4 0 4 4 0 6 2 0
";

const LEFT_COLUMN: &str = "\
frame 0 1 nodes 2 patches 3 triangles 6 open 6
cut 0 1
tries 2:1 3:1
patches 1 2 3
4 0 0 8 0 0 8 4 0
4 0 0 8 4 0 4 4 0
0 4 0 0 0 0 2 2 0
0 0 0 4 0 0 2 2 0
4 0 0 4 4 0 2 2 0
4 4 0 0 4 0 2 2 0
";

pub(super) const BOTH_COLUMNS: &str = "\
frame 0 1 nodes 4 patches 3 triangles 10 open 6
cut 0 1 2 3
tries 2:1 3:1 4:1 5:1 6:1
patches 2 5 6
0 4 0 0 0 0 2 2 0
0 0 0 4 0 0 2 2 0
8 0 0 8 4 0 6 2 0
8 4 0 4 4 0 6 2 0
4 0 0 4 2 0 2 2 0
4 2 0 4 4 0 2 2 0
4 4 0 0 4 0 2 2 0
4 4 0 4 2 0 6 2 0
4 2 0 4 0 0 6 2 0
4 0 0 8 0 0 6 2 0
";

// The status of the view's words over a file Q of these bytes, and what was written.
fn full(alloc: Global, bytes: &[u8], view: [&str; 6]) -> Result<(Status, String), Fail> {
    let [x, y, z, focal, threshold, limit] = view;
    run_on(
        alloc,
        &["full", "Q", x, y, z, focal, threshold, limit],
        bytes,
    )
}

#[test]
fn views_of_the_square(rt: HostRuntime) -> Result<(), Fail> {
    let alloc = rt.alloc();
    for (view, frame) in [
        (["2", "2", "104", "100", "9", "100"], SQUARE_FAN),
        (["2", "2", "104", "100", "10", "100"], SQUARE_BASE),
        (["2", "2", "104", "100", "9", "3"], SQUARE_BASE),
        (["2", "2", "0", "100", "999", "100"], SQUARE_FAN),
    ] {
        let (status, written) = full(alloc, &square(), view)?;
        assert_eq!(rt; (status, written.as_str()), (Status::Ok, frame));
    }
    Ok(())
}

#[test]
fn views_of_the_strip(rt: HostRuntime) -> Result<(), Fail> {
    let alloc = rt.alloc();
    for (view, frame) in [
        (["12", "2", "0", "3", "100", "1000"], RIGHT_COLUMN),
        (["-4", "2", "0", "3", "100", "1000"], LEFT_COLUMN),
        (["4", "2", "107", "100", "10", "1000"], BOTH_COLUMNS),
    ] {
        let (status, written) = full(alloc, &strip(), view)?;
        assert_eq!(rt; (status, written.as_str()), (Status::Ok, frame));
    }
    Ok(())
}

// A parent is tried before its child of the same score and a lesser number.
#[test]
fn a_chain_of_one_score(rt: HostRuntime) -> Result<(), Fail> {
    let alloc = rt.alloc();
    for (limit, frame) in [
        ("2", END_OF_CHAIN),
        // The base has more triangles than the limit, and is shown all the same.
        ("1", SQUARE_BASE),
    ] {
        let (_, written) = full(alloc, &chain(), ["2", "2", "0", "100", "9", limit])?;
        assert_eq!(rt; written.as_str(), frame);
    }
    Ok(())
}

// The status of the sample's view with another word in this place.
fn with_word(alloc: Global, place: usize, word: &str) -> Result<Status, Fail> {
    let mut view = ["2", "2", "104", "100", "9", "100"];
    if let Some(old) = view.get_mut(place) {
        *old = word;
    }
    Ok(full(alloc, &square(), view)?.0)
}

#[test]
fn numbers_out_of_range(rt: HostRuntime) -> Result<(), Fail> {
    let alloc = rt.alloc();
    for (place, word) in [
        (0, "2097153"),
        (1, "-2097153"),
        (2, "2097153"),
        (0, "-0"),
        (1, "-02"),
        (2, "+104"),
        (3, "0"),
        (3, "65537"),
        (3, "0100"),
        (4, "0"),
        (4, "65537"),
        (4, "+9"),
        (5, "4294967296"),
        (5, "0100"),
        (5, "-0"),
        (5, "+100"),
        (5, ""),
        (5, "1e2"),
    ] {
        assert_eq!(rt; with_word(alloc, place, word)?, Status::Usage);
    }
    Ok(())
}

#[test]
fn numbers_within_range(rt: HostRuntime) -> Result<(), Fail> {
    let alloc = rt.alloc();
    for (place, word) in [
        (0, "-2097152"),
        (1, "2097152"),
        (2, "0"),
        (3, "65536"),
        (4, "1"),
        (5, "0"),
        (5, "4294967295"),
    ] {
        assert_eq!(rt; with_word(alloc, place, word)?, Status::Ok);
    }
    Ok(())
}
