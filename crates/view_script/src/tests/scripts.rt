//! Scripts without faults.

use super::read;
use crate::{Line, Mode, Order};
use grid_vertex::Point;
use round_model::View;
use std::test::Fail;

#[test]
fn lines_and_words(rt: HostRuntime) -> Result<(), Fail> {
    let eye = Point {
        x: -2_097_152,
        y: 2_097_152,
        z: 0,
    };
    let Some(view) = View::new(eye, 65_536, 1, 4_294_967_295) else {
        return Err(Fail::from("no view at the bounds"));
    };
    let text = b"open 1\n\n \t\r\nview\t1  -2097152 2097152 0\r65536 1 4294967295 \r\n frame 1";
    let script = read(rt.alloc(), text, Mode::Serve, 1)?;
    let lines = [
        Line {
            number: 1,
            order: Order::Open(1),
        },
        Line {
            number: 4,
            order: Order::View(1, view),
        },
        Line {
            number: 5,
            order: Order::Frame(1),
        },
    ];
    assert_eq!(rt; script.lines(), lines.as_slice());
    assert_eq!(rt; (script.mode(), script.tiers()), (Mode::Serve, 1));
    Ok(())
}

#[test]
fn lines_of_a_session(rt: HostRuntime) -> Result<(), Fail> {
    let text = b"open 64\nopen 1\nfree 64\nturn 3\nsettle\nstatus\nclose 64\n";
    let script = read(rt.alloc(), text, Mode::Play, 4)?;
    let lines = [
        Line {
            number: 1,
            order: Order::Open(64),
        },
        Line {
            number: 3,
            order: Order::Free(64),
        },
        Line {
            number: 7,
            order: Order::Close(64),
        },
    ];
    assert_eq!(rt; script.lines().len(), 7);
    assert_eq!(rt;
        script.of_session(rt.alloc(), 64)?.as_slice(),
        lines.as_slice()
    );
    assert_eq!(rt; script.of_session(rt.alloc(), 2)?.len(), 0);
    Ok(())
}

#[test]
fn scripts_without_lines(rt: HostRuntime) -> Result<(), Fail> {
    for text in ["", "\n", " \n\t\n\r\n", " "] {
        let script = read(rt.alloc(), text.as_bytes(), Mode::Play, 1)?;
        assert_eq!(rt; script.lines().len(), 0);
    }
    Ok(())
}
