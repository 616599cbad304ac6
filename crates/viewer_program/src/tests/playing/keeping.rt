//! What keeps a patch in its tier, and what comes of one that was dropped.

use super::*;

const TWO_SESSIONS: &str = "\
open 1
view 1 12 2 0 3 100 1000
open 2
view 2 12 2 0 3 100 1000
settle
frame 1
frame 2
open 3
view 3 -4 2 0 3 100 1000
turn 0
turn 0
turn 0
free 2
turn 0
turn 0
turn 0
free 1
turn 0
turn 0
";

const BOTH_COME: &str = "\
open 1
view 1
open 2
view 2
turn 0 reserve 4
turn 0 got 4
turn 0 commit 4
turn 0 reserve 5
turn 0 got 5
turn 0 commit 5
turn 0 idle
";

const LOCKS_KEEP: &str = "\
open 3
view 3
turn 0 kept 5 2
turn 0 kept 4 2
turn 0 idle
free 2 2
turn 0 kept 5 1
turn 0 kept 4 1
turn 0 idle
free 1 2
turn 0 evict 5
turn 0 reserve 2
";

#[test]
fn locks_keep_patches(rt: HostRuntime) -> Result<(), Fail> {
    let alloc = rt.alloc();
    let frame_1 = "frame 1 1 nodes 2 patches 3 triangles 6 open 6\n";
    let frame_2 = "frame 2 1 nodes 2 patches 3 triangles 6 open 6\n";
    let text = [
        BOTH_COME,
        frame_1,
        RIGHT_LINES,
        frame_2,
        RIGHT_LINES,
        LOCKS_KEEP,
    ];
    assert!(rt;
        plays(
            alloc,
            &["play", "Q", "240"],
            &strip(),
            TWO_SESSIONS,
            &text,
            None
        )?
    );
    Ok(())
}

const ONE_TRY: &str = "\
open 1
view 1 12 2 0 3 100 1000
step 1
turn 0
turn 0
turn 0
open 2
view 2 -4 2 0 3 100 1000
turn 0
step 1
turn 0
turn 0
";

const TRY_KEEPS: &str = "\
open 1
view 1
step 1 try 4 0
turn 0 reserve 4
turn 0 got 4
turn 0 commit 4
open 2
view 2
turn 0 kept 4 1
step 1 withdraw 4
turn 0 idle
turn 0 evict 4
";

#[test]
fn a_try_in_flight_keeps_a_patch(rt: HostRuntime) -> Result<(), Fail> {
    let alloc = rt.alloc();
    assert!(rt;
        plays(
            alloc,
            &["play", "Q", "180"],
            &strip(),
            ONE_TRY,
            &[TRY_KEEPS],
            None
        )?
    );
    Ok(())
}

const TWO_TIERS: &str = "\
open 1
view 1 12 2 0 3 100 1000
turn 1
turn 1
turn 1
turn 0
open 2
view 2 -4 2 0 3 100 1000
turn 1
turn 0
turn 0
status
";

const LOST: &str = "\
open 1
view 1
turn 1 reserve 4
turn 1 got 4
turn 1 commit 4
turn 0 reserve 4
open 2
view 2
turn 1 evict 4
turn 0 lost 4
turn 0 idle
tier 0 budget 240 load 120 held 2 coming
tier 1 budget 60 load 0 held 0 coming
";

#[test]
fn a_patch_is_lost_below(rt: HostRuntime) -> Result<(), Fail> {
    let alloc = rt.alloc();
    assert!(rt;
        plays(
            alloc,
            &["play", "Q", "240", "60"],
            &strip(),
            TWO_TIERS,
            &[LOST],
            None
        )?
    );
    Ok(())
}
