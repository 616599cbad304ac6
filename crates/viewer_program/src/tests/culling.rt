//! Frames of views with half-spaces, and sides of half-spaces.

use super::views::{BOTH_COLUMNS, RIGHT_COLUMN};
use super::*;

// The words of `cull` over the file Q: a view of six numbers, and the numbers of half-spaces.
fn cull_words(alloc: Global, view: [&str; 6], numbers: &str) -> Result<Vec<String>, Fail> {
    let mut words = owned_words(alloc, &["cull", "Q"])?;
    for number in view {
        words.push(String::from_str(alloc, number)?)?;
    }
    for number in numbers.split_whitespace() {
        words.push(String::from_str(alloc, number)?)?;
    }
    Ok(words)
}

// The status of `cull` over a file Q of these bytes, and what was written.
fn cull(
    alloc: Global,
    bytes: &[u8],
    view: [&str; 6],
    numbers: &str,
) -> Result<(Status, String), Fail> {
    let owned = cull_words(alloc, view, numbers)?;
    let mut words = Vec::new(alloc);
    for word in &owned {
        words.push(word.as_str())?;
    }
    run_on(alloc, &words, bytes)
}

const NEAR: [&str; 6] = ["4", "2", "107", "100", "10", "1000"];

#[test]
fn half_spaces_of_the_strip(rt: HostRuntime) -> Result<(), Fail> {
    let alloc = rt.alloc();
    for (numbers, frame) in [
        ("1 0 0 10", RIGHT_COLUMN),
        ("1 0 0 9", BOTH_COLUMNS),
        // One of two half-spaces is enough.
        ("1 0 0 9 1 0 0 10", RIGHT_COLUMN),
        ("1 0 0 10 1 0 0 9", RIGHT_COLUMN),
    ] {
        let (status, written) = cull(alloc, &strip(), NEAR, numbers)?;
        assert_eq!(rt; (status, written.as_str()), (Status::Ok, frame));
    }
    Ok(())
}

#[test]
fn what_is_behind_the_square(rt: HostRuntime) -> Result<(), Fail> {
    let alloc = rt.alloc();
    let view = ["2", "2", "104", "100", "9", "100"];
    for (numbers, frame) in [
        // The ball of node 1 reaches from -2 to 6, and one that only touches the plane isn't behind it.
        ("1 0 0 6", SQUARE_FAN),
        ("1 0 0 7", SQUARE_BASE),
        ("0 -1 0 2", SQUARE_FAN),
        ("0 -1 0 3", SQUARE_BASE),
    ] {
        let (status, written) = cull(alloc, &square(), view, numbers)?;
        assert_eq!(rt; (status, written.as_str()), (Status::Ok, frame));
    }
    Ok(())
}

const ONE: &str = "1 0 0 0";

#[test]
fn how_many_numbers(rt: HostRuntime) -> Result<(), Fail> {
    let alloc = rt.alloc();
    let six = "1 0 0 0 1 0 0 0 1 0 0 0 1 0 0 0 1 0 0 0 1 0 0 0";
    let seven = "1 0 0 0 1 0 0 0 1 0 0 0 1 0 0 0 1 0 0 0 1 0 0 0 1 0 0 0";
    for (numbers, ends) in [
        ("", Status::Usage),
        ("1 0 0", Status::Usage),
        (ONE, Status::Ok),
        ("1 0 0 0 1", Status::Usage),
        (six, Status::Ok),
        (seven, Status::Usage),
    ] {
        assert_eq!(rt; cull(alloc, &strip(), NEAR, numbers)?.0, ends);
    }
    Ok(())
}

#[test]
fn views_out_of_range(rt: HostRuntime) -> Result<(), Fail> {
    let alloc = rt.alloc();
    for view in [
        ["2097153", "2", "107", "100", "10", "1000"],
        ["4", "2", "107", "0", "10", "1000"],
        ["4", "2", "107", "100", "65537", "1000"],
        ["4", "2", "107", "100", "10", "4294967296"],
    ] {
        let (status, written) = cull(alloc, &strip(), view, ONE)?;
        assert_eq!(rt; (status, written.as_str()), (Status::Usage, ""));
    }
    Ok(())
}

// The status of `sides` over a file Q of these bytes, and what was written.
fn sides(alloc: Global, bytes: &[u8], plane: [&str; 4]) -> Result<(Status, String), Fail> {
    let [a, b, c, d] = plane;
    run_on(alloc, &["sides", "Q", a, b, c, d], bytes)
}

#[test]
fn sides_of_the_strip(rt: HostRuntime) -> Result<(), Fail> {
    let alloc = rt.alloc();
    let lines = "node 0 across\nnode 1 behind\nnode 2 across\nnode 3 behind\nnode 4 behind\n";
    let (status, written) = sides(alloc, &strip(), ["1", "0", "0", "10"])?;
    assert_eq!(rt; (status, written.as_str()), (Status::Ok, lines));
    Ok(())
}

#[test]
fn sides_of_the_square(rt: HostRuntime) -> Result<(), Fail> {
    let alloc = rt.alloc();
    for (level, lines) in [
        // A ball inside that touches the plane is in front, and one outside is across.
        ("-2", "node 0 across\nnode 1 front\nnode 2 front\n"),
        ("6", "node 0 across\nnode 1 across\nnode 2 behind\n"),
        ("7", "node 0 across\nnode 1 behind\nnode 2 behind\n"),
        ("-6", "node 0 front\nnode 1 front\nnode 2 front\n"),
    ] {
        let (_, written) = sides(alloc, &square(), ["1", "0", "0", level])?;
        assert_eq!(rt; written.as_str(), lines);
    }
    Ok(())
}

#[test]
fn half_spaces_out_of_range(rt: HostRuntime) -> Result<(), Fail> {
    let alloc = rt.alloc();
    for plane in [
        ["0", "0", "0", "1"],
        ["1025", "0", "0", "1"],
        ["0", "-1025", "0", "1"],
        ["0", "0", "1025", "1"],
        ["1", "0", "0", "8589934593"],
        ["1", "0", "0", "-8589934593"],
        ["1", "0", "0", "-0"],
        ["+1", "0", "0", "1"],
    ] {
        let (status, written) = sides(alloc, &square(), plane)?;
        assert_eq!(rt; (status, written.as_str()), (Status::Usage, ""));
    }
    Ok(())
}

#[test]
fn half_spaces_within_range(rt: HostRuntime) -> Result<(), Fail> {
    let alloc = rt.alloc();
    for plane in [
        ["1024", "-1024", "1024", "8589934592"],
        ["0", "0", "-1", "-8589934592"],
    ] {
        assert_eq!(rt; sides(alloc, &square(), plane)?.0, Status::Ok);
    }
    Ok(())
}
