//! A line of each kind.

use crate::{add_closed, add_freed, add_open, add_step, add_tier, add_turn, add_view};
use file_model::FileFault;
use patch_file::read_index;
use sample_files::square;
use session_model::Stepped;
use std::test::Fail;
use tier_budget::Tier;
use tier_model::Turn;
use view_outside::{MemoryStore, NamedFile};

#[test]
fn lines_of_sessions(rt: HostRuntime) -> Result<(), Fail> {
    let alloc = rt.alloc();
    let mut out = Vec::new(alloc);
    add_open(alloc, 1, &mut out)?;
    add_view(alloc, 1, &mut out)?;
    add_freed(alloc, 1, 2, &mut out)?;
    add_closed(alloc, 64, 0, &mut out)?;
    assert_eq!(rt;
        out.as_slice(),
        b"open 1\nview 1\nfree 1 2\nclose 64 0\n".as_slice()
    );
    Ok(())
}

#[test]
fn lines_of_steps(rt: HostRuntime) -> Result<(), Fail> {
    let alloc = rt.alloc();
    let mut out = Vec::new(alloc);
    add_step(alloc, 1, Stepped::Tried(4, 0), &mut out)?;
    add_step(alloc, 1, Stepped::Withdrew(4), &mut out)?;
    add_step(alloc, 2, Stepped::GaveBack(5), &mut out)?;
    add_step(alloc, 2, Stepped::Done, &mut out)?;
    add_step(alloc, 2, Stepped::Unlocked(5), &mut out)?;
    assert_eq!(rt;
        out.as_slice(),
        b"step 1 try 4 0\nstep 1 withdraw 4\nstep 2 back 5\nstep 2 done\nstep 2 unlock 5\n".as_slice()
    );
    Ok(())
}

#[test]
fn lines_of_turns(rt: HostRuntime) -> Result<(), Fail> {
    let alloc = rt.alloc();
    let mut out = Vec::new(alloc);
    add_turn(alloc, 0, Turn::Reserve(4), &mut out)?;
    add_turn(alloc, 0, Turn::Got(4), &mut out)?;
    add_turn(alloc, 0, Turn::Commit(4), &mut out)?;
    add_turn(alloc, 0, Turn::Kept(5, 2), &mut out)?;
    add_turn(alloc, 1, Turn::Evict(4), &mut out)?;
    add_turn(alloc, 0, Turn::Lost(4), &mut out)?;
    add_turn(alloc, 0, Turn::Fault(1), &mut out)?;
    add_turn(
        alloc,
        0,
        Turn::Changed(1, FileFault::CornerIndex(1, 3, 5)),
        &mut out,
    )?;
    add_turn(alloc, 0, Turn::Idle, &mut out)?;
    assert_eq!(rt;
        out.as_slice(),
        b"turn 0 reserve 4\nturn 0 got 4\nturn 0 commit 4\nturn 0 kept 5 2\nturn 1 evict 4\n\
        turn 0 lost 4\nturn 0 fault 1\nturn 0 changed 1 12 1 3 5\nturn 0 idle\n"
            .as_slice()
    );
    Ok(())
}

#[test]
fn lines_of_tiers(rt: HostRuntime) -> Result<(), Fail> {
    let alloc = rt.alloc();
    let file = NamedFile::new(String::from_str(alloc, "Q")?, square().to_vec(alloc)?);
    let mut store = MemoryStore::new(vec![in alloc; file]?, Vec::new(alloc), Vec::new(alloc));
    let index = read_index(alloc, &mut store, 0)?;
    let mut out = Vec::new(alloc);
    add_tier(alloc, 1, &Tier::new(alloc, &index, 60)?, &mut out)?;
    assert_eq!(rt;
        out.as_slice(),
        b"tier 1 budget 60 load 0 held 0 coming\n".as_slice()
    );
    Ok(())
}
