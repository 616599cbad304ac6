//! Bytes that wait until they are worth a call of a sink.

ghost use Rattle.std.specs.Prelude.{◌≡◌, ◌+◌, ◌≤◌, [], ◌++◌, length, OnOk, OnErr};
ghost use Rattle.view_outside.specs.Faults.{Rose};
ghost use Rattle.view_outside.specs.Written.{Wrote};
ghost use Rattle.patch_file.specs.Batches.{Sends};
ghost use Rattle.patch_file.specs.declared.batches.TheConstants.{ROOM};

use std::marker::Model;
use view_outside::{Sink, WriteFault, write_all};

/// How many bytes wait at most.
const ROOM: usize = 4096;

/// Bytes on their way to a sink, in their order. They stand in place and take no other memory.
#[derive(Drop)]
pub struct Batch {
    bytes: [u8; ROOM],
    filled: usize,
}

impl Model for Batch {
    ghost use Rattle.std.specs.Prelude.{ℕ, ◌≤◌, List, take};
    ghost use Rattle.patch_file.specs.declared.batches.TheConstants.{ROOM};

    ghost Value = { List ℕ };

    ghost view = { λ batch. take batch.filled batch.bytes };

    ghost invariant = { λ batch. batch.filled ≤ ROOM };
}

impl Batch {
    /// No bytes.
    pub fn new() -> Batch
        ensures { result ≡ [] }
    {
        Batch {
            bytes: [0; ROOM],
            filled: 0,
        }
    }

    /// Adds these bytes. What has no room goes to the sink.
    pub fn add<O: Sink>(&mut self, bytes: &[u8], sink: &mut O) -> Result<(), WriteFault>
        ensures text { Sends result (O.written sink.old) (O.written sink.new) self.old self.new
            bytes.now }
        ensures later { O.faults sink.old ≤ O.faults sink.new }
        ensures cause { OnErr result (Rose (O.faults sink.old) (O.faults sink.new)) }
    {
        if bytes.len() <= ROOM - self.filled {
            self.keep(bytes);
            return Ok(());
        }
        self.send(sink)?;
        if bytes.len() > ROOM {
            return write_all(bytes, sink);
        }
        self.keep(bytes);
        Ok(())
    }

    /// Sends all that waits.
    pub fn send<O: Sink>(&mut self, sink: &mut O) -> Result<(), WriteFault>
        ensures text { Wrote result (O.written sink.old) (O.written sink.new) self.old }
        ensures empty { OnOk result (self.new ≡ []) }
        ensures later { O.faults sink.old ≤ O.faults sink.new }
        ensures cause { OnErr result (Rose (O.faults sink.old) (O.faults sink.new)) }
    {
        write_all(&self.bytes[..self.filled], sink)?;
        self.filled = 0;
        Ok(())
    }

    fn keep(&mut self, bytes: &[u8])
        requires { length self.old + length bytes.now ≤ ROOM }
        ensures { self.new ≡ self.old ++ bytes.now }
    {
        let end = self.filled + bytes.len();
        self.bytes[self.filled..end].copy_from_slice(bytes);
        self.filled = end;
    }
}
