//! Each fault, alone and with others in one line.

use super::read;
use crate::{Mode, ScriptRefusal};
use std::alloc::Global;
use std::process::Abort;
use text_model::ScriptFault;

// The script for so many tiers has this fault.
fn has_fault(
    rt: &impl Abort,
    alloc: Global,
    text: &str,
    mode: Mode,
    tiers: u32,
    fault: ScriptFault,
) {
    let refusal = read(alloc, text.as_bytes(), mode, tiers).err();
    assert_eq!(rt; refusal, Some(ScriptRefusal::Script(fault)), "at {text}");
}

#[test]
fn faults_of_words(rt: HostRuntime) {
    for (text, fault) in [
        ("open 1\nopen 2\u{1}\n", ScriptFault::NotText(2)),
        ("\u{7f}", ScriptFault::NotText(1)),
        ("\n\nopens 1\n", ScriptFault::UnknownWord(3)),
        ("Open 1\n", ScriptFault::UnknownWord(1)),
        ("open\n", ScriptFault::WrongCount(1)),
        ("open 1 1\n", ScriptFault::WrongCount(1)),
        ("settle 1\n", ScriptFault::WrongCount(1)),
        ("open 1\nview 1 0 0 0 1 1\n", ScriptFault::WrongCount(2)),
        ("open 05\n", ScriptFault::Number(1, 2)),
        ("open +1\n", ScriptFault::Number(1, 2)),
        ("open -0\n", ScriptFault::Number(1, 2)),
        ("open 4294967296\n", ScriptFault::Number(1, 2)),
    ] {
        has_fault(&rt, rt.alloc(), text, Mode::Play, 1, fault);
    }
}

#[test]
fn faults_of_a_view(rt: HostRuntime) {
    for (line, word) in [
        ("view x 0 0 0 1 1 1", 2),
        ("view 1 2097153 0 0 0 0 1", 3),
        ("view 1 0 -2097153 0 1 1 1", 4),
        ("view 1 0 0 -0 1 1 1", 5),
        ("view 1 0 0 0 0 1 1", 6),
        ("view 1 0 0 0 65537 1 1", 6),
        ("view 1 0 0 0 1 0 1", 7),
        ("view 1 0 0 0 1 65537 1", 7),
        ("view 1 0 0 0 1 1 4294967296", 8),
        ("view 1 0 0 0 1 1 -1", 8),
    ] {
        has_fault(
            &rt,
            rt.alloc(),
            line,
            Mode::Play,
            1,
            ScriptFault::Number(1, word),
        );
    }
}

#[test]
fn faults_of_orders(rt: HostRuntime) {
    for (text, fault) in [
        ("open 0\n", ScriptFault::SessionOut(1)),
        ("open 65\n", ScriptFault::SessionOut(1)),
        ("open 64\nopen 64\n", ScriptFault::AlreadyThere(2)),
        ("view 1 0 0 0 1 1 1\n", ScriptFault::NotThere(1)),
        ("open 1\nfree 2\n", ScriptFault::NotThere(2)),
        ("open 1\nclose 1\nclose 1\n", ScriptFault::NotThere(3)),
        ("open 1\nframe 1\n", ScriptFault::NoView(2)),
        ("open 1\nstep 1\n", ScriptFault::NoView(2)),
        (
            "open 1\nview 1 0 0 0 1 1 1\nclose 1\nopen 1\nframe 1\n",
            ScriptFault::NoView(5),
        ),
        ("turn 1\n", ScriptFault::NoTier(1)),
    ] {
        has_fault(&rt, rt.alloc(), text, Mode::Play, 1, fault);
    }
}

#[test]
fn faults_of_a_script_for_threads(rt: HostRuntime) {
    for (text, fault) in [
        (
            "open 1\nview 1 2 2 104 100 9 100\nstep 1\n",
            ScriptFault::PlayOnly(3),
        ),
        ("turn 0\n", ScriptFault::PlayOnly(1)),
        ("settle\n", ScriptFault::PlayOnly(1)),
        ("status\n", ScriptFault::PlayOnly(1)),
    ] {
        has_fault(&rt, rt.alloc(), text, Mode::Serve, 1, fault);
    }
}

#[test]
fn the_least_fault_of_a_line(rt: HostRuntime) {
    for (text, fault) in [
        ("opens 1\u{1}\n", ScriptFault::NotText(1)),
        ("opens 1 05\n", ScriptFault::UnknownWord(1)),
        ("open 05 1\n", ScriptFault::WrongCount(1)),
        ("view 65 0 0 0 x 1 1\n", ScriptFault::Number(1, 6)),
        ("view 65 0 0 0 1 1 1\n", ScriptFault::SessionOut(1)),
        ("open 1\nopen 1\u{1}\n", ScriptFault::NotText(2)),
        ("free 1 1\n", ScriptFault::WrongCount(1)),
        ("step 1\n", ScriptFault::NotThere(1)),
        ("open 1\nstep 1\n", ScriptFault::NoView(2)),
        ("turn 9 9\n", ScriptFault::WrongCount(1)),
        ("turn 9\n", ScriptFault::NoTier(1)),
        ("settle 0\n", ScriptFault::WrongCount(1)),
    ] {
        has_fault(&rt, rt.alloc(), text, Mode::Serve, 1, fault);
    }
}

#[test]
fn the_first_faulty_line_decides(rt: HostRuntime) {
    let text = "open 1\nframe 1\nopen 1\u{1}\n";
    has_fault(&rt, rt.alloc(), text, Mode::Play, 1, ScriptFault::NoView(2));
}
