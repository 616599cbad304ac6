//! What a tier takes and gives up by its wishes.

use super::super::Tier;
use super::{abort, arrive, commit, drop_held, least_held, rank, reserve, strip_bodies};
use crate::{Abort, Turn};
use patch_file::Body;
use std::process;
use std::sync::Arc;
use std::test::Fail;

/// The highest of the missing patches, of all and of some. Patches 0 and 1 lead from the root, and 6 isn't wished.
fn takes_the_highest(rt: &impl process::Abort, tier: &mut Tier) -> Result<(), Fail> {
    rank(tier, [9, 9, 3, 5, 5, 4, 0])?;
    assert_eq!(rt; tier.greatest_missing(|_| true), Some(3));
    assert_eq!(rt; tier.greatest_missing(|patch| patch > 3), Some(4));
    assert_eq!(rt; tier.greatest_missing(|patch| patch > 5), None);
    Ok(())
}

/// Patch 2 comes, and is the least that is held below patch 3, and none is below patch 6.
fn gives_up_the_lowest(
    rt: &impl process::Abort,
    tier: &mut Tier,
    third: &Arc<Body>,
) -> Result<(), Fail> {
    reserve(tier, 2)?;
    arrive(tier, third.clone()?)?;
    commit(tier)?;
    assert_eq!(rt; (least_held(tier, 3), least_held(tier, 6)), (Some(2), None));
    Ok(())
}

/// A patch that failed is put aside, one that was lost isn't.
fn puts_aside(rt: &impl process::Abort, tier: &mut Tier) -> Result<(), Fail> {
    reserve(tier, 3)?;
    abort(tier, Abort::Fault)?;
    assert_eq!(rt; tier.greatest_missing(|_| true), Some(4));
    reserve(tier, 4)?;
    abort(tier, Abort::Lost)?;
    assert_eq!(rt; tier.greatest_missing(|_| true), Some(4));
    Ok(())
}

/// The journal of all that, when patch 2 has left.
fn has_told_all(rt: &impl process::Abort, tier: &mut Tier) -> Result<(), Fail> {
    drop_held(tier, 2)?;
    assert_eq!(rt; (tier.load(), tier.held_count(), tier.version()), (0, 0, 1));
    let journal = [
        Turn::Reserve(2),
        Turn::Got(2),
        Turn::Commit(2),
        Turn::Reserve(3),
        Turn::Fault(3),
        Turn::Reserve(4),
        Turn::Lost(4),
        Turn::Evict(2),
    ];
    assert_eq!(rt; tier.journal(), Some(journal.as_slice()));
    Ok(())
}

/// All that, one after the other.
fn is_told_all(rt: &impl process::Abort, tier: &mut Tier, third: &Arc<Body>) -> Result<(), Fail> {
    takes_the_highest(rt, tier)?;
    gives_up_the_lowest(rt, tier, third)?;
    puts_aside(rt, tier)?;
    has_told_all(rt, tier)
}

#[test]
fn takes_the_highest_and_gives_up_the_lowest(rt: HostRuntime) -> Result<(), Fail> {
    let alloc = rt.alloc();
    let (index, bodies) = strip_bodies(alloc)?;
    let [_, _, third, ..] = bodies.as_slice() else {
        return Err(Fail::from("fewer patches"));
    };
    let mut tier = Tier::new(alloc, &index, 120)?;
    is_told_all(&rt, &mut tier, third)
}
