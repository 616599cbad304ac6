//! A sink over a writer of std.

ghost use Rattle.std.specs.Prelude.{◌≡◌, None};

use crate::failed::Failed;
use crate::faults::FaultCount;
use crate::interrupts;
use crate::sinks::Sink;
use std::io::Write;
use std::marker::Model;

/// What goes to a writer. It is seen as its count of faults and tells nothing of the bytes.
#[derive(Drop)]
pub struct StdSink<W> {
    writer: W,
    faults: FaultCount,
}

impl<W> Model for StdSink<W> {
    ghost use Rattle.std.specs.Prelude.{ℕ};

    ghost Value = { ℕ };

    ghost view = { λ sink. sink.faults };
}

impl<W: Write> StdSink<W> {
    pub fn new(writer: W) -> StdSink<W>
        ensures { result ≡ 0 }
    {
        StdSink {
            writer,
            faults: FaultCount::new(),
        }
    }
}

impl<W: Write> Sink for StdSink<W> {
    ghost written = { λ _. None };

    ghost faults = { λ sink. sink };

    // A writer that takes nothing of a piece has failed too.
    fn write(&mut self, piece: &[u8]) -> Result<usize, Failed> {
        match interrupts::write(&mut self.writer, piece) {
            Ok(n) if n > 0 => Ok(n),
            _ => Err(self.faults.raise()),
        }
    }
}
