//! A source over a reader of std.

ghost use Rattle.std.specs.Prelude.{◌≡◌, None};

use crate::failed::Failed;
use crate::faults::FaultCount;
use crate::interrupts;
use crate::sources::Source;
use std::io::Read;
use std::marker::Model;

/// What a reader gives. It is seen as its count of faults and tells nothing of the bytes.
#[derive(Drop)]
pub struct StdSource<R> {
    reader: R,
    faults: FaultCount,
}

impl<R> Model for StdSource<R> {
    ghost use Rattle.std.specs.Prelude.{ℕ};

    ghost Value = { ℕ };

    ghost view = { λ source. source.faults };
}

impl<R: Read> StdSource<R> {
    pub fn new(reader: R) -> StdSource<R>
        ensures { result ≡ 0 }
    {
        StdSource {
            reader,
            faults: FaultCount::new(),
        }
    }
}

impl<R: Read> Source for StdSource<R> {
    ghost rest = { λ _. None };

    ghost faults = { λ source. source };

    fn read(&mut self, buffer: &mut [u8]) -> Result<usize, Failed> {
        match interrupts::read(&mut self.reader, buffer) {
            Ok(n) => Ok(n),
            Err(_) => Err(self.faults.raise()),
        }
    }
}
