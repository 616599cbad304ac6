//! Heads, and a journal with an entry of each kind.

use crate::{add_journal, add_serve_head, add_session_head, add_settled_head};
use file_model::FileFault;
use std::test::Fail;
use tier_model::Turn;

#[test]
fn heads_of_the_parts(rt: HostRuntime) -> Result<(), Fail> {
    let alloc = rt.alloc();
    let mut out = Vec::new(alloc);
    add_serve_head(alloc, 2, 4, &mut out)?;
    add_session_head(alloc, 64, &mut out)?;
    add_settled_head(alloc, &mut out)?;
    assert_eq!(rt;
        out.as_slice(),
        b"serve sessions 2 tiers 4\nsession 64\nsettled\n".as_slice()
    );
    Ok(())
}

#[test]
fn a_journal_of_each_kind(rt: HostRuntime) -> Result<(), Fail> {
    let alloc = rt.alloc();
    let journal = [
        Turn::Reserve(4),
        Turn::Got(4),
        Turn::Commit(4),
        Turn::Kept(5, 2),
        Turn::Evict(4),
        Turn::Lost(4),
        Turn::Fault(1),
        Turn::Changed(1, FileFault::CornerIndex(1, 3, 5)),
    ];
    let mut out = Vec::new(alloc);
    add_journal(alloc, 3, &journal, &mut out)?;
    add_journal(alloc, 0, &[], &mut out)?;
    assert_eq!(rt;
        out.as_slice(),
        b"journal 3 8\nreserve 4\ngot 4\ncommit 4\nkept 5 2\nevict 4\nlost 4\nfault 1\n\
        changed 1 12 1 3 5\njournal 0 0\n"
            .as_slice()
    );
    Ok(())
}
