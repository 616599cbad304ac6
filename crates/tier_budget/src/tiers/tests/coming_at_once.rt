//! Two patches are pinned, and then two come at once.

use super::super::Tier;
use super::{arrive, commit, pin, reserve, strip_bodies};
use crate::{Coming, Turn};
use patch_file::Body;
use std::process;
use std::sync::Arc;
use std::test::Fail;

/// The tier reserves patches 2 and 3, the last two that it has room for.
fn reserves_two(rt: &impl process::Abort, tier: &mut Tier) -> Result<(), Fail> {
    reserve(tier, 2)?;
    reserve(tier, 3)?;
    let bare = [
        Coming {
            patch: 2,
            has_body: false,
        },
        Coming {
            patch: 3,
            has_body: false,
        },
    ];
    assert_eq!(rt; tier.coming(), bare.as_slice());
    assert_eq!(rt;
        (tier.budget(), tier.load(), tier.held_count(), tier.width()),
        (240, 240, 2, 2)
    );
    Ok(())
}

/// Both arrive, and then both are committed.
fn takes_two(tier: &mut Tier, third: &Arc<Body>, fourth: &Arc<Body>) -> Result<(), Fail> {
    arrive(tier, third.clone()?)?;
    arrive(tier, fourth.clone()?)?;
    commit(tier)?;
    commit(tier)
}

/// What the tier holds then, and its journal.
fn holds_four(rt: &impl process::Abort, tier: &Tier) {
    assert_eq!(rt;
        (tier.load(), tier.held_count(), tier.pinned_bytes()),
        (240, 4, 120)
    );
    let journal = [
        Turn::Reserve(2),
        Turn::Reserve(3),
        Turn::Got(2),
        Turn::Got(3),
        Turn::Commit(2),
        Turn::Commit(3),
    ];
    assert_eq!(rt; tier.journal(), Some(journal.as_slice()));
}

/// Two patches are pinned, and then two come at once.
fn pins_and_takes(
    rt: &impl process::Abort,
    tier: &mut Tier,
    bodies: [&Arc<Body>; 4],
) -> Result<(), Fail> {
    let [first, second, third, fourth] = bodies;
    pin(tier, first.clone()?)?;
    pin(tier, second.clone()?)?;
    reserves_two(rt, tier)?;
    takes_two(tier, third, fourth)?;
    holds_four(rt, tier);
    Ok(())
}

#[test]
fn two_patches_come_at_once(rt: HostRuntime) -> Result<(), Fail> {
    let alloc = rt.alloc();
    let (index, bodies) = strip_bodies(alloc)?;
    let [first, second, third, fourth, ..] = bodies.as_slice() else {
        return Err(Fail::from("fewer patches"));
    };
    let mut tier = Tier::with_width(alloc, &index, 240, 2)?;
    pins_and_takes(&rt, &mut tier, [first, second, third, fourth])
}
