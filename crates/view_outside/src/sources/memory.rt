//! A source in memory.

ghost use Rattle.std.specs.Prelude.{◌≡◌, ◌<◌, ◌≤◌, length, Some, IfOk, OnErr, ⊤};
ghost use Rattle.std.specs.Result.{result_ok, result_unwrap_or};
ghost use Rattle.view_outside.specs.Faults.{HasCause};
ghost use Rattle.view_outside.specs.SourceState.{read_answer, after_read};
ghost use Rattle.view_outside.specs.Streams.{ReadsRest};

use crate::copies::copy_from;
use crate::failed::Failed;
use crate::faults::FaultCount;
use crate::planned::PlannedCalls;
use crate::sources::Source;
use std::marker::Model;

/// Bytes in memory, which are read in pieces, with calls that are to fail.
#[derive(Drop)]
pub struct MemorySource {
    bytes: Vec<u8>,
    next: usize,
    piece: usize,
    fail_calls: PlannedCalls,
    faults: FaultCount,
}

impl Model for MemorySource {
    ghost use Rattle.std.specs.Prelude.{◌≤◌, drop, length};
    ghost use Rattle.view_outside.specs.SourceState.{SourceState};

    ghost Value = { SourceState };

    ghost view = { λ source. record {
      rest = drop source.next source.bytes.items;
      piece = source.piece;
      fail_calls = source.fail_calls;
      faults = source.faults;
    } };

    ghost invariant = { λ source. (source.next ≤ length source.bytes.items) × (1 ≤ source.piece) };
}

impl MemorySource {
    /// A source of these bytes, of which each read gives at most `piece`.
    /// An entry c of `fail_calls` makes the c-th call fail, counted from 1.
    pub fn new(bytes: Vec<u8>, piece: usize, fail_calls: Vec<u64>) -> MemorySource
        requires { 1 ≤ piece }
        ensures rest { result.rest ≡ bytes.items }
        ensures piece { result.piece ≡ piece }
        ensures fail_calls { result.fail_calls ≡ fail_calls.items }
        ensures faults { result.faults ≡ 0 }
    {
        MemorySource {
            bytes,
            next: 0,
            piece,
            fail_calls: PlannedCalls::new(fail_calls),
            faults: FaultCount::new(),
        }
    }
}

impl Source for MemorySource {
    ghost rest = { λ source. Some source.rest };

    ghost faults = { λ source. source.faults };

    // The trait's clauses, and then what this source adds to them.
    fn read(&mut self, buffer: &mut [u8]) -> Result<usize, Failed>
        requires { 0 < length buffer.old }
        ensures bound { IfOk result (λ n. n ≤ length buffer.new) }
        ensures bytes { IfOk result
            (λ n. ReadsRest (Some self.old.rest) buffer.new n (Some self.new.rest)) }
        ensures unread { OnErr result (self.new.rest ≡ self.old.rest) }
        ensures cause { HasCause self.old.faults self.new.faults ⊤ result }

        ensures answer { result_ok result ≡ read_answer self.old (length buffer.old) }
        ensures after { self.new ≡ after_read self.old (result_unwrap_or result 0) }
    {
        if self.fail_calls.count() {
            return Err(self.faults.raise());
        }
        let room = buffer.len().min(self.piece);
        let n = copy_from(&self.bytes, self.next, &mut buffer[..room]);
        self.next += n;
        Ok(n)
    }
}
