//! The longest script, and sources that fail or never end.

ghost use Rattle.std.specs.Prelude.{◌≡◌, ◌<◌, ◌≤◌, None, length, IfOk, OnErr, ⊤};
ghost use Rattle.view_outside.specs.Faults.{HasCause};
ghost use Rattle.view_outside.specs.Streams.{ReadsRest};

use super::read;
use crate::{Mode, ScriptRefusal, read_script};
use std::test::Fail;
use text_model::ScriptFault;
use view_outside::{Failed, MemorySource, Source};

// Gives line feeds without an end, and counts them.
#[derive(Drop)]
struct Endless {
    given: u64,
}

impl Source for Endless {
    ghost rest = { λ _. None };

    ghost faults = { λ _. 0 };

    fn read(&mut self, buffer: &mut [u8]) -> Result<usize, Failed> {
        for byte in buffer.iter_mut() {
            *byte = b'\n';
        }
        self.given = self.given.saturating_add(buffer.len() as u64);
        Ok(buffer.len())
    }
}

#[test]
fn the_longest_script(rt: HostRuntime) -> Result<(), Fail> {
    let alloc = rt.alloc();
    let mut text = vec![in alloc; b'\n'; 1_048_576]?;
    assert_eq!(rt; read(alloc, &text, Mode::Play, 1)?.lines().len(), 0);
    text.push(b'\n')?;
    assert_eq!(rt;
        read(alloc, &text, Mode::Play, 1).err(),
        Some(ScriptRefusal::Script(ScriptFault::TooLong))
    );
    Ok(())
}

#[test]
fn a_source_that_never_ends(rt: HostRuntime) {
    let mut source = Endless { given: 0 };
    assert_eq!(rt;
        read_script(rt.alloc(), &mut source, Mode::Play, 1).err(),
        Some(ScriptRefusal::Script(ScriptFault::TooLong))
    );
    assert_eq!(rt; source.given, 1_048_577);
}

#[test]
fn a_source_that_fails(rt: HostRuntime) -> Result<(), Fail> {
    let alloc = rt.alloc();
    for call in 1..9 {
        let text = b"open 1\n".to_vec(alloc)?;
        let mut source = MemorySource::new(text, 1, vec![in alloc; call]?);
        assert_eq!(rt;
            read_script(alloc, &mut source, Mode::Play, 1).err(),
            Some(ScriptRefusal::ReadFault),
            "at {call}"
        );
    }
    let text = b"open 1\n".to_vec(alloc)?;
    let mut source = MemorySource::new(text, 1, vec![in alloc; 9]?);
    assert_eq!(rt;
        read_script(alloc, &mut source, Mode::Play, 1)?
            .lines()
            .len(),
        1
    );
    Ok(())
}
