//! A sink in memory.

ghost use Rattle.std.specs.Prelude.{◌≡◌, ◌<◌, ◌≤◌, [], length, take, Some, IfOk, OnErr, ⊤};
ghost use Rattle.std.specs.Result.{result_ok, result_unwrap_or};
ghost use Rattle.view_outside.specs.Faults.{HasCause};
ghost use Rattle.view_outside.specs.SinkState.{write_answer, after_write};
ghost use Rattle.view_outside.specs.Streams.{appended};

use crate::failed::Failed;
use crate::faults::FaultCount;
use crate::planned::PlannedCalls;
use crate::sinks::Sink;
use std::alloc::{AllocError, Global};
use std::marker::Model;

/// Room in memory for bytes, which are written in pieces, with calls that are to fail.
#[derive(Drop)]
pub struct MemorySink {
    bytes: Vec<u8>,
    room: usize,
    piece: usize,
    fail_calls: PlannedCalls,
    faults: FaultCount,
}

impl Model for MemorySink {
    ghost use Rattle.view_outside.specs.SinkState.{SinkState};

    ghost Value = { SinkState };

    ghost use Rattle.view_outside.specs.Room.{HasRoom};

    ghost view = { λ sink. record {
      written = sink.bytes.items;
      room = sink.room;
      piece = sink.piece;
      fail_calls = sink.fail_calls;
      faults = sink.faults;
    } };

    ghost invariant = { HasRoom };
}

impl MemorySink {
    /// A sink with room for this many bytes, of which each write takes at most `piece`.
    /// An entry c of `fail_calls` makes the c-th call fail, counted from 1.
    pub fn with_room(
        alloc: Global,
        room: usize,
        piece: usize,
        fail_calls: Vec<u64>,
    ) -> Result<MemorySink, AllocError>
        requires { 1 ≤ piece }
        ensures written { IfOk result (λ sink. sink.written ≡ []) }
        ensures room { IfOk result (λ sink. sink.room ≡ room) }
        ensures piece { IfOk result (λ sink. sink.piece ≡ piece) }
        ensures fail_calls { IfOk result (λ sink. sink.fail_calls ≡ fail_calls.items) }
        ensures faults { IfOk result (λ sink. sink.faults ≡ 0) }
    {
        let bytes = Vec::with_capacity(alloc, room)?;
        Ok(MemorySink {
            bytes,
            room,
            piece,
            fail_calls: PlannedCalls::new(fail_calls),
            faults: FaultCount::new(),
        })
    }

    /// What was written.
    pub fn bytes(&self) -> &[u8]
        ensures { result.now ≡ self.now.written }
    {
        &self.bytes
    }

    /// What was written, of which the sink lets go.
    pub fn into_bytes(self) -> Vec<u8>
        ensures { result.items ≡ self.written }
    {
        self.bytes
    }
}

impl Sink for MemorySink {
    ghost written = { λ sink. Some sink.written };

    ghost faults = { λ sink. sink.faults };

    // The trait's clauses, and then what this sink adds to them.
    fn write(&mut self, piece: &[u8]) -> Result<usize, Failed>
        requires { 0 < length piece.now }
        ensures some { IfOk result (λ n. 1 ≤ n) }
        ensures bound { IfOk result (λ n. n ≤ length piece.now) }
        ensures appends { IfOk result
            (λ n. Some self.new.written ≡ appended (Some self.old.written) (take n piece.now)) }
        ensures kept { OnErr result (self.new.written ≡ self.old.written) }
        ensures cause { HasCause self.old.faults self.new.faults ⊤ result }

        ensures answer { result_ok result ≡ write_answer self.old (length piece.now) }
        ensures after { self.new
            ≡ after_write self.old (take (result_unwrap_or result 0) piece.now) }
    {
        let call_fails = self.fail_calls.count();
        let left = self.room - self.bytes.len();
        if call_fails || left == 0 {
            return Err(self.faults.raise());
        }
        let n = piece.len().min(self.piece).min(left);
        if self.bytes.extend_from_slice(&piece[..n]).is_err() {
            unreachable!()
        }
        Ok(n)
    }
}
