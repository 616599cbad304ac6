//! Answers, and lines that spell orders.

use super::*;
use live_model::LiveOrder;
use script_model::Order;
use std::test::Fail;
use text_model::ScriptFault;

#[test]
fn orders(rt: HostRuntime) {
    let show: [&[u8]; 2] = [b"show", b"7"];
    assert_eq!(rt; live_spelt(&show), Ok(LiveOrder::Show(7)));
    let body: [&[u8]; 2] = [b"body", b"4294967295"];
    assert_eq!(rt; live_spelt(&body), Ok(LiveOrder::Body(4_294_967_295)));
    let settle: [&[u8]; 1] = [b"settle"];
    assert_eq!(rt; live_spelt(&settle), Ok(LiveOrder::Play(Order::Settle)));
    let turns: [&[u8]; 1] = [b"turns"];
    assert_eq!(rt; live_spelt(&turns), Err(ScriptFault::WrongCount(0)));
    let number: [&[u8]; 2] = [b"turns", b"08"];
    assert_eq!(rt; live_spelt(&number), Err(ScriptFault::Number(0, 2)));
}

#[test]
fn answers(rt: HostRuntime) -> Result<(), Fail> {
    let alloc = rt.alloc();
    assert_eq!(rt;
        refused_text(alloc, ScriptFault::TooLong)?.as_slice(),
        b"refused 40\n".as_slice()
    );
    assert_eq!(rt;
        refused_text(alloc, ScriptFault::Number(0, 2))?.as_slice(),
        b"refused 44 2\n".as_slice()
    );
    assert_eq!(rt;
        show_text(alloc, 1, 2, 30, &[0, 4], &[], &[5])?.as_slice(),
        b"show 1 2 nodes 2 patches 1 triangles 30\ncut 0 4\ntries\npatches 5\n".as_slice()
    );
    Ok(())
}
