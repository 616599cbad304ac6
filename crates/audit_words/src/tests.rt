//! Lines of each kind, right and wrong.

use crate::{read_entry, read_head, read_outcome, read_tries};
use audit_spelling::{Head, TierTurn};
use file_model::FileFault;
use std::alloc::AllocError;
use tier_model::Turn;

#[test]
fn answers(rt: HostRuntime) -> Result<(), AllocError> {
    let tries = read_tries(rt.alloc(), b"tries 1:1 0:20", 2)?;
    assert!(rt; tries.map(|tries| tries.len()) == Some(2));
    assert!(rt; read_tries(rt.alloc(), b"tries 2:1", 2)?.is_none());
    assert!(rt; read_tries(rt.alloc(), b"tries  1:1", 2)?.is_none());
    Ok(())
}

#[test]
fn heads(rt: HostRuntime) -> Result<(), AllocError> {
    let head = read_head(rt.alloc(), b"journal 0 12")?;
    assert!(rt;
        head == Some(Head {
            tier: 0,
            entries: 12
        })
    );
    assert!(rt; read_head(rt.alloc(), b"journal 0")? == None);
    Ok(())
}

#[test]
fn entries(rt: HostRuntime) -> Result<(), AllocError> {
    assert!(rt; read_entry(rt.alloc(), b"reserve 1", 2)? == Some(Turn::Reserve(1)));
    let changed = read_entry(rt.alloc(), b"changed 1 12 1 3 9", 2)?;
    assert!(rt; changed == Some(Turn::Changed(1, FileFault::CornerIndex(1, 3, 9))));
    assert!(rt; read_entry(rt.alloc(), b"changed 1 2 70000", 2)? == None);
    assert!(rt; read_entry(rt.alloc(), b"idle", 2)? == None);
    Ok(())
}

#[test]
fn outcomes(rt: HostRuntime) -> Result<(), AllocError> {
    let got = read_outcome(rt.alloc(), b"turn 1 got 0", 2)?;
    assert!(rt;
        got == Some(TierTurn {
            tier: 1,
            turn: Turn::Got(0)
        })
    );
    assert!(rt; read_outcome(rt.alloc(), b"turn 1 lost 0", 2)? == None);
    Ok(())
}
