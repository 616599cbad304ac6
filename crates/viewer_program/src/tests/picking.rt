//! What rays meet first.

use super::*;

// The views that show the fan of the square, and its base.
const FAN: [&str; 6] = ["2", "2", "104", "100", "9", "100"];

const BASE: [&str; 6] = ["2", "2", "104", "100", "10", "100"];

// The status of `pick` over a file Q of these bytes, and what was written.
fn pick(
    alloc: Global,
    bytes: &[u8],
    view: [&str; 6],
    ray: [&str; 6],
) -> Result<(Status, String), Fail> {
    let [x, y, z, focal, threshold, limit] = view;
    let [from_x, from_y, from_z, to_x, to_y, to_z] = ray;
    run_on(
        alloc,
        &[
            "pick", "Q", x, y, z, focal, threshold, limit, from_x, from_y, from_z, to_x, to_y, to_z,
        ],
        bytes,
    )
}

// Whether each ray gives its line over the square's fan.
fn all_give(alloc: Global, rays: &[([&str; 6], &str)]) -> Result<bool, Fail> {
    for (ray, line) in rays {
        let (status, written) = pick(alloc, &square(), FAN, *ray)?;
        if status != Status::Ok || written.as_str() != *line {
            return Ok(false);
        }
    }
    Ok(true)
}

#[test]
fn hits_of_the_square(rt: HostRuntime) -> Result<(), Fail> {
    let alloc = rt.alloc();
    assert!(rt; all_give(
        alloc,
        &[
            (["1", "2", "10", "0", "0", "-1"], "hit 3 patch 1 triangle 3 at 80 8\n"),
            // All four meet here.
            (["2", "2", "10", "0", "0", "-1"], "hit 0 patch 1 triangle 0 at 80 8\n"),
        ],
    )?);
    Ok(())
}

#[test]
fn misses_of_the_square(rt: HostRuntime) -> Result<(), Fail> {
    let alloc = rt.alloc();
    assert!(rt;
        all_give(
            alloc,
            &[
                (["5", "2", "10", "0", "0", "-1"], "miss\n"),
                (["1", "2", "10", "0", "0", "1"], "miss\n"),
                (["-4", "2", "0", "1", "0", "0"], "miss\n"),
            ],
        )?
    );
    Ok(())
}

#[test]
fn other_hits_of_the_square(rt: HostRuntime) -> Result<(), Fail> {
    let alloc = rt.alloc();
    assert!(rt; all_give(
        alloc,
        &[
            // From behind.
            (["1", "2", "-10", "0", "0", "1"], "hit 3 patch 1 triangle 3 at 80 8\n"),
            // An edge of triangles 0 and 3, and one of 1 and 2.
            (["1", "1", "10", "0", "0", "-1"], "hit 0 patch 1 triangle 0 at 80 8\n"),
            (["3", "3", "10", "0", "0", "-1"], "hit 1 patch 1 triangle 1 at 80 8\n"),
            // The ray starts on triangle 3.
            (["1", "2", "0", "0", "0", "-1"], "hit 3 patch 1 triangle 3 at 0 8\n"),
            // A longer direction is passed in fewer of its lengths.
            (["1", "2", "10", "0", "0", "-5"], "hit 3 patch 1 triangle 3 at 80 40\n"),
        ],
    )?);
    Ok(())
}

#[test]
fn a_hit_of_the_base(rt: HostRuntime) -> Result<(), Fail> {
    let alloc = rt.alloc();
    let (_, written) = pick(alloc, &square(), BASE, ["1", "2", "10", "0", "0", "-1"])?;
    assert_eq!(rt; written.as_str(), "hit 1 patch 0 triangle 1 at 160 16\n");
    Ok(())
}

// The frame shows patches 0, 4 and 5, of two triangles each.
#[test]
fn a_hit_of_the_third_patch(rt: HostRuntime) -> Result<(), Fail> {
    let alloc = rt.alloc();
    let right = ["12", "2", "0", "3", "100", "1000"];
    let (_, written) = pick(alloc, &strip(), right, ["7", "2", "10", "0", "0", "-1"])?;
    assert_eq!(rt; written.as_str(), "hit 4 patch 5 triangle 0 at 80 8\n");
    Ok(())
}

#[test]
fn words_out_of_range(rt: HostRuntime) -> Result<(), Fail> {
    let alloc = rt.alloc();
    for (view, ray) in [
        (FAN, ["1", "2", "10", "0", "0", "0"]),
        (FAN, ["2097153", "2", "10", "0", "0", "-1"]),
        (FAN, ["1", "-2097153", "10", "0", "0", "-1"]),
        (FAN, ["1", "2", "10", "1025", "0", "-1"]),
        (FAN, ["1", "2", "10", "0", "0", "-1025"]),
        (FAN, ["1", "2", "10", "0", "-0", "-1"]),
        (
            ["2", "2", "104", "0", "9", "100"],
            ["1", "2", "10", "0", "0", "-1"],
        ),
    ] {
        let (status, written) = pick(alloc, &square(), view, ray)?;
        assert_eq!(rt; (status, written.as_str()), (Status::Usage, ""));
    }
    Ok(())
}

#[test]
fn words_within_range(rt: HostRuntime) -> Result<(), Fail> {
    let alloc = rt.alloc();
    for ray in [
        ["2097152", "-2097152", "10", "1024", "0", "-1024"],
        ["-2097152", "2097152", "0", "-1024", "1024", "0"],
    ] {
        assert_eq!(rt; pick(alloc, &square(), FAN, ray)?.0, Status::Ok);
    }
    Ok(())
}
