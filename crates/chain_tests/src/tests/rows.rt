//! Chains whose turns are known, over the square and the strip of two columns.

use super::scenes::{Content, Course, Deed, Scene, expect_play, view};
use cache_chain::{Turn, TurnLine};
use round_model::View;
use sample_files::{square, strip};
use std::test::Fail;

/// A turn of the top tier.
fn top(turn: Turn) -> TurnLine {
    TurnLine { tier: 0, turn }
}

/// A turn of the tier below the top.
fn lower(turn: Turn) -> TurnLine {
    TurnLine { tier: 1, turn }
}

/// A tier where nothing comes.
fn at_rest(load: u64, held: u32) -> Content {
    Content {
        load,
        held,
        coming: 0,
    }
}

/// The view that wants node 1 of the square, whose score is 10.
fn square_view() -> Result<View, Fail> {
    view([2, 2, 104], 100, 9, 100)
}

// There is just room for the patch that leads from node 1.
#[test]
fn a_wished_patch_comes(rt: HostRuntime) -> Result<(), Fail> {
    let scene = Scene {
        bytes: &square(),
        fails: &[],
        budgets: &[144],
        width: 1,
    };
    let play = Course {
        deeds: &[Deed::Post(1, square_view()?), Deed::Settle],
        turns: &[
            top(Turn::Reserve(1)),
            top(Turn::Got(1)),
            top(Turn::Commit(1)),
            top(Turn::Idle),
        ],
        contents: &[at_rest(144, 2)],
    };
    expect_play(&rt, rt.alloc(), &scene, &play)
}

// A byte less, and it never comes.
#[test]
fn a_patch_without_room_never_comes(rt: HostRuntime) -> Result<(), Fail> {
    let scene = Scene {
        bytes: &square(),
        fails: &[],
        budgets: &[143],
        width: 1,
    };
    let play = Course {
        deeds: &[Deed::Post(1, square_view()?), Deed::Settle],
        turns: &[top(Turn::Idle)],
        contents: &[at_rest(60, 1)],
    };
    expect_play(&rt, rt.alloc(), &scene, &play)
}

// The first read of the patch's body, at offset 160, fails. The patch is put aside until a view is posted again.
#[test]
fn a_patch_that_failed_comes_by_new_wishes(rt: HostRuntime) -> Result<(), Fail> {
    let scene = Scene {
        bytes: &square(),
        fails: &[(160, 1)],
        budgets: &[144],
        width: 1,
    };
    let posts = Deed::Post(1, square_view()?);
    let play = Course {
        deeds: &[posts, Deed::Settle, posts, Deed::Settle],
        turns: &[
            top(Turn::Reserve(1)),
            top(Turn::Fault(1)),
            top(Turn::Idle),
            top(Turn::Reserve(1)),
            top(Turn::Got(1)),
            top(Turn::Commit(1)),
            top(Turn::Idle),
        ],
        contents: &[at_rest(144, 2)],
    };
    expect_play(&rt, rt.alloc(), &scene, &play)
}

// The second session's view makes the lower tier give up patch 4 for patches that are wished more, while the top
// waits for it.
#[test]
fn a_fetch_is_lost(rt: HostRuntime) -> Result<(), Fail> {
    let scene = Scene {
        bytes: &strip(),
        fails: &[],
        budgets: &[240, 60],
        width: 1,
    };
    let play = Course {
        deeds: &[
            Deed::Post(1, view([12, 2, 0], 3, 100, 1000)?),
            Deed::Turn(1),
            Deed::Turn(1),
            Deed::Turn(1),
            Deed::Turn(0),
            Deed::Post(2, view([-4, 2, 0], 3, 100, 1000)?),
            Deed::Turn(1),
            Deed::Turn(0),
            Deed::Turn(0),
        ],
        turns: &[
            lower(Turn::Reserve(4)),
            lower(Turn::Got(4)),
            lower(Turn::Commit(4)),
            top(Turn::Reserve(4)),
            lower(Turn::Evict(4)),
            top(Turn::Lost(4)),
            top(Turn::Idle),
        ],
        contents: &[at_rest(120, 2), at_rest(0, 0)],
    };
    expect_play(&rt, rt.alloc(), &scene, &play)
}

// Patches 2 and 3 come together, in a tier that takes two at a time.
#[test]
fn two_patches_come_at_once(rt: HostRuntime) -> Result<(), Fail> {
    let scene = Scene {
        bytes: &strip(),
        fails: &[],
        budgets: &[240],
        width: 2,
    };
    let play = Course {
        deeds: &[
            Deed::Post(1, view([4, 2, 107], 100, 10, 1000)?),
            Deed::Turn(0),
            Deed::Turn(0),
            Deed::Turn(0),
            Deed::Turn(0),
            Deed::Turn(0),
            Deed::Turn(0),
            Deed::Turn(0),
        ],
        turns: &[
            top(Turn::Reserve(2)),
            top(Turn::Reserve(3)),
            top(Turn::Got(2)),
            top(Turn::Got(3)),
            top(Turn::Commit(2)),
            top(Turn::Commit(3)),
            top(Turn::Idle),
        ],
        contents: &[at_rest(240, 4)],
    };
    expect_play(&rt, rt.alloc(), &scene, &play)
}

// After three of these turns both still come, the first with its body.
#[test]
fn two_patches_are_coming(rt: HostRuntime) -> Result<(), Fail> {
    let scene = Scene {
        bytes: &strip(),
        fails: &[],
        budgets: &[240],
        width: 2,
    };
    let play = Course {
        deeds: &[
            Deed::Post(1, view([4, 2, 107], 100, 10, 1000)?),
            Deed::Turn(0),
            Deed::Turn(0),
            Deed::Turn(0),
        ],
        turns: &[
            top(Turn::Reserve(2)),
            top(Turn::Reserve(3)),
            top(Turn::Got(2)),
        ],
        contents: &[Content {
            load: 240,
            held: 2,
            coming: 2,
        }],
    };
    expect_play(&rt, rt.alloc(), &scene, &play)
}
