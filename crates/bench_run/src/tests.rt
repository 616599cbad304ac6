//! Summaries of bench runs.

use super::*;
use std::test::Fail;

#[test]
fn two_columns(rt: HostRuntime) -> Result<(), Fail> {
    let text = bench(rt.alloc(), 2)?;
    let summary =
        b"bench 2\nfile 680 nodes 5 patches 7\nbase patches 2 triangles 4 open 6\nsettle 16\n\
        frame nodes 4 patches 3 triangles 10 open 6\n";
    assert_eq!(rt; text.as_slice(), summary.as_slice());
    Ok(())
}

#[test]
fn many_columns(rt: HostRuntime) -> Result<(), Fail> {
    let text = bench(rt.alloc(), 256)?;
    let summary =
        b"bench 256\nfile 99232 nodes 513 patches 1023\nbase patches 256 triangles 512 open 514\n\
        settle 2302\nframe nodes 512 patches 257 triangles 1534 open 514\n";
    assert_eq!(rt; text.as_slice(), summary.as_slice());
    Ok(())
}
