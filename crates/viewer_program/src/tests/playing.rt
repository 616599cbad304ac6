//! Scripts that are played.

use super::*;

mod failing;
mod keeping;

const FRAMED: &str = "open 1\nview 1 2 2 104 100 9 100\nframe 1\nsettle\nframe 1\n";

const VIEWED: &str = "open 1\nview 1\n";

const LOADED: &str = "turn 0 reserve 1\nturn 0 got 1\nturn 0 commit 1\nturn 0 idle\n";

const BASE_1: &str = "\
frame 1 1 nodes 1 patches 1 triangles 2 open 4
cut 0
tries 1:0
patches 0
0 0 0 4 0 0 4 4 0
0 0 0 4 4 0 0 4 0
";

const BASE_2: &str = "\
frame 1 2 nodes 1 patches 1 triangles 2 open 4
cut 0
tries 1:0
patches 0
0 0 0 4 0 0 4 4 0
0 0 0 4 4 0 0 4 0
";

const FAN_1: &str = "\
frame 1 1 nodes 2 patches 1 triangles 4 open 4
cut 0 1
tries 1:1
patches 1
0 0 0 4 0 0 2 2 0
4 0 0 4 4 0 2 2 0
4 4 0 0 4 0 2 2 0
0 4 0 0 0 0 2 2 0
";

const FAN_2: &str = "\
frame 1 2 nodes 2 patches 1 triangles 4 open 4
cut 0 1
tries 1:1
patches 1
0 0 0 4 0 0 2 2 0
4 0 0 4 4 0 2 2 0
4 4 0 0 4 0 2 2 0
0 4 0 0 0 0 2 2 0
";

const LEFT_FRAME: &str = "\
frame 1 1 nodes 2 patches 3 triangles 6 open 6
cut 0 1
tries 2:1 3:1 4:0
patches 1 2 3
4 0 0 8 0 0 8 4 0
4 0 0 8 4 0 4 4 0
0 4 0 0 0 0 2 2 0
0 0 0 4 0 0 2 2 0
4 0 0 4 4 0 2 2 0
4 4 0 0 4 0 2 2 0
";

const RIGHT_LINES: &str = "\
cut 0 2
tries 4:1 5:1
patches 0 4 5
0 0 0 4 0 0 4 4 0
0 0 0 4 4 0 0 4 0
4 4 0 4 0 0 6 2 0
4 0 0 8 0 0 6 2 0
8 0 0 8 4 0 6 2 0
8 4 0 4 4 0 6 2 0
";

// The text of these pieces, one after the other.
fn joined(alloc: Global, pieces: &[&str]) -> Result<String, Fail> {
    let mut text = String::new(alloc);
    for piece in pieces {
        text.push_str(piece)?;
    }
    Ok(text)
}

// Whether the script, played by these words over a file Q of these bytes, ends well with this text and takes so
// many bytes from the store.
fn plays(
    alloc: Global,
    words: &[&str],
    bytes: &[u8],
    script: &str,
    pieces: &[&str],
    taken: Option<u128>,
) -> Result<bool, Fail> {
    let mut store = store_of(alloc, bytes, &[])?;
    let (status, written) = run_script(alloc, words, &mut store, script, 2000)?;
    let text = joined(alloc, pieces)?;
    let exact = taken.is_none_or(|taken| taken == store.taken());
    Ok(status == Status::Ok && written == text && exact)
}

// The status of a script that is played by these words over a file Q of these bytes, of which nothing is written.
fn refused_play(
    alloc: Global,
    words: &[&str],
    bytes: &[u8],
    script: &str,
) -> Result<Option<Status>, Fail> {
    let mut store = store_of(alloc, bytes, &[])?;
    let (status, written) = run_script(alloc, words, &mut store, script, 2000)?;
    Ok(written.is_empty().then_some(status))
}

#[test]
fn a_patch_is_loaded_between_frames(rt: HostRuntime) -> Result<(), Fail> {
    let alloc = rt.alloc();
    for (budget, bytes, taken) in [("144", &square()[..], 388), ("114", &square_2()[..], 328)] {
        let text = [VIEWED, BASE_1, LOADED, FAN_2];
        assert!(rt;
            plays(
                alloc,
                &["play", "Q", budget],
                bytes,
                FRAMED,
                &text,
                Some(taken)
            )?
        );
    }
    Ok(())
}

#[test]
fn no_room_for_a_patch(rt: HostRuntime) -> Result<(), Fail> {
    let alloc = rt.alloc();
    let text = [VIEWED, BASE_1, "turn 0 idle\n", BASE_2];
    assert!(rt;
        plays(
            alloc,
            &["play", "Q", "143"],
            &square(),
            FRAMED,
            &text,
            Some(304)
        )?
    );
    assert!(rt;
        plays(
            alloc,
            &["play", "Q", "113"],
            &square_2(),
            FRAMED,
            &text,
            None
        )?
    );
    Ok(())
}

#[test]
fn no_room_for_the_base(rt: HostRuntime) -> Result<(), Fail> {
    let alloc = rt.alloc();
    let short = Status::Budget {
        need: 60,
        given: 59,
    };
    for script in [FRAMED, "", "closed\n"] {
        let status = refused_play(alloc, &["play", "Q", "59"], &square(), script)?;
        assert_eq!(rt; status, Some(short));
    }
    let short_2 = Status::Budget {
        need: 48,
        given: 47,
    };
    let status = refused_play(alloc, &["play", "Q", "47"], &square_2(), FRAMED)?;
    assert_eq!(rt; status, Some(short_2));
    Ok(())
}

#[test]
fn faulty_scripts(rt: HostRuntime) -> Result<(), Fail> {
    let alloc = rt.alloc();
    for (script, fault) in [
        ("open 1\nframe 1\n", ScriptFault::NoView(2)),
        ("turn 1\n", ScriptFault::NoTier(1)),
    ] {
        let status = refused_play(alloc, &["play", "Q", "144"], &square(), script)?;
        assert_eq!(rt; status, Some(Status::Script(fault)));
    }
    Ok(())
}

#[test]
fn scripts_without_lines(rt: HostRuntime) -> Result<(), Fail> {
    let alloc = rt.alloc();
    for script in ["", "\n", "\n \t\n\r\n\n"] {
        assert!(rt; plays(alloc, &["play", "Q", "144"], &square(), script, &[], None)?);
    }
    Ok(())
}

const STRIP_SETTLED: &str = "open 1\nview 1 4 2 107 100 10 1000\nsettle\nframe 1\n";

const ONE_BY_ONE: &str = "\
turn 0 reserve 2
turn 0 got 2
turn 0 commit 2
turn 0 reserve 3
turn 0 got 3
turn 0 commit 3
turn 0 idle
";

const TWO_AT_ONCE: &str = "\
turn 0 reserve 2
turn 0 reserve 3
turn 0 got 2
turn 0 got 3
turn 0 commit 2
turn 0 commit 3
turn 0 idle
";

#[test]
fn patches_one_by_one_and_two_at_once(rt: HostRuntime) -> Result<(), Fail> {
    let alloc = rt.alloc();
    for (words, turns) in [
        (&["play", "Q", "240"][..], ONE_BY_ONE),
        (&["playw", "Q", "1", "240"][..], ONE_BY_ONE),
        (&["playw", "Q", "2", "240"][..], TWO_AT_ONCE),
    ] {
        let text = [VIEWED, turns, LEFT_FRAME];
        assert!(rt; plays(alloc, words, &strip(), STRIP_SETTLED, &text, None)?);
    }
    Ok(())
}

#[test]
fn two_patches_are_coming(rt: HostRuntime) -> Result<(), Fail> {
    let alloc = rt.alloc();
    let script = "open 1\nview 1 4 2 107 100 10 1000\nturn 0\nturn 0\nturn 0\nstatus\n";
    let turns = "turn 0 reserve 2\nturn 0 reserve 3\nturn 0 got 2\n";
    let status = "tier 0 budget 240 load 240 held 2 coming 2 3\n";
    let text = [VIEWED, turns, status];
    assert!(rt;
        plays(
            alloc,
            &["playw", "Q", "2", "240"],
            &strip(),
            script,
            &text,
            None
        )?
    );
    Ok(())
}
