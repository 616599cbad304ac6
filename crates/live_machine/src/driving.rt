//! Driving: line after line, until the source ends.

ghost use Rattle.std.specs.Prelude.{◌≡◌, ℕ, ◌^◌, ◌<◌, ◌≤◌, None, IfErr, OnOk};
ghost use Rattle.live_machine.specs.declared.refusals.DriveRefusal.TheVariants.{ReadFault, WriteFault};
ghost use Rattle.live_machine.specs.Drives.{DrivesThrough, StopsDriving};
ghost use Rattle.session_seats.specs.Seats.{at_seat};
ghost use Rattle.view_machine.specs.Machines.{world_of, run_state, KeepsPlace};
ghost use Rattle.view_outside.specs.Faults.{Rose};
ghost use Rattle.view_outside.specs.OnlyRead.{OnlyIf};

use crate::refusals::DriveRefusal;
use crate::stepping::{answer_next, no_sessions};
use line_reader::LineReader;
use live_model::MOST_LINES;
use std::alloc::Global;
use view_machine::Machine;
use view_outside::{Sink, Source, Store};

/// Answers each line of the source before the next one is read, until the source ends. Condition: no session is open,
/// and the version of the board is below 2^62. Behind 2^62 lines it ends as if the source had.
///
/// After `ReadFault` and `Memory` all lines were answered but the one at which driving stopped, of whose answer nothing
/// was written; of `Memory` its first steps may have been made. After `WriteFault` the last line was done too, and of
/// its answer a proper prefix was written.
pub fn drive<S: Store, I: Source, O: Sink>(
    alloc: Global,
    machine: &mut Machine<S>,
    source: &mut I,
    sink: &mut O,
) -> Result<(), DriveRefusal>
    requires closed { (i : ℕ) → at_seat machine.old.seats.sessions i ≡ None }
    requires few { machine.old.board.version < 2 ^ 62 }
    ensures drove { OnOk result
        (DrivesThrough (world_of machine.old) (run_state machine.old) (run_state machine.new)
        (I.rest source.old) (I.rest source.new) (O.written sink.old) (O.written sink.new)) }
    ensures stops { IfErr result
        (λ refusal.
        StopsDriving refusal (world_of machine.old) (run_state machine.old)
        (run_state machine.new) (I.rest source.old) (I.rest source.new)
        (O.written sink.old) (O.written sink.new)) }
    ensures place { KeepsPlace machine.old machine.new }
    ensures files { S.files machine.new.chain.store ≡ S.files machine.old.chain.store }
    ensures later { S.faults machine.old.chain.store ≤ S.faults machine.new.chain.store }
    ensures read_fault { IfErr result
        (OnlyIf ReadFault (Rose (I.faults source.old) (I.faults source.new))) }
    ensures write_fault { IfErr result
        (OnlyIf WriteFault (Rose (O.faults sink.old) (O.faults sink.new))) }
{
    let mut sessions = no_sessions(machine);
    let mut reader = LineReader::new(alloc);
    let mut left = MOST_LINES;
    'lines: while left > 0 {
        left -= 1;
        let more = answer_next(alloc, machine, &mut sessions, &mut reader, source, sink)?;
        if !more {
            return Ok(());
        }
    }
    Ok(())
}
