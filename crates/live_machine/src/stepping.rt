//! The step of driving: one line is read, answered, and the answer written.

ghost use Rattle.std.specs.Prelude.{◌≡◌, ℕ, ◌^◌, ◌<◌, ◌≤◌, List, None, length, IfOk, IfErr, OnOk};
ghost use Rattle.line_reader.specs.declared.lines.LineRead.TheVariants.{Line, End};
ghost use Rattle.live_machine.specs.Answering.{AnswerGives};
ghost use Rattle.live_machine.specs.Judging.{HasHistory};
ghost use Rattle.live_machine.specs.declared.refusals.DriveRefusal.TheVariants.{ReadFault, WriteFault};
ghost use Rattle.live_machine.specs.Stepping.{IsRead, NextGives, StopsNext};
ghost use Rattle.live_model.specs.declared.limits.TheConstants.{MOST_LINE};
ghost use Rattle.session_seats.specs.Seats.{at_seat};
ghost use Rattle.view_machine.specs.LineEnds.{FewFrames};
ghost use Rattle.view_machine.specs.LineOutputs.{LineKeeps};
ghost use Rattle.view_machine.specs.Machines.{world_of, run_state};
ghost use Rattle.view_outside.specs.Faults.{Rose};
ghost use Rattle.view_outside.specs.OnlyRead.{OnlyIf};

use crate::answering::answer;
use crate::judging::judge;
use crate::refusals::DriveRefusal;
use grid_vertex::NoMemory;
use line_reader::{LineRead, LineReader};
use live_model::MOST_LINE;
use std::alloc::Global;
use text_model::ScriptFault;
use view_machine::Machine;
use view_outside::{Sink, Source, Store, write_all};
use view_script::Sessions;

/// How far the sessions of a machine have come of which none is open.
pub fn no_sessions<S: Store>(machine: &Machine<S>) -> Sessions
    requires { (i : ℕ) → at_seat machine.now.seats.sessions i ≡ None }
    ensures { HasHistory machine.now result }
{
    let _machine = machine;
    Sessions::new()
}

// The answer to a line that isn't too long.
fn answer_line<S: Store>(
    alloc: Global,
    machine: &mut Machine<S>,
    sessions: &mut Sessions,
    line: &[u8],
) -> Result<Vec<u8>, NoMemory>
    requires short { length line.now ≤ 4096 }
    requires history { HasHistory machine.old sessions.old }
    requires few { machine.old.board.version < 2 ^ 63 }
    requires few_frames { FewFrames machine.old }
    ensures { AnswerGives line.now machine.old machine.new sessions.new
        (S.files machine.old.chain.store) (S.files machine.new.chain.store)
        (S.faults machine.old.chain.store) (S.faults machine.new.chain.store) result
        (λ text. text.items) }
{
    match judge(alloc, machine, sessions, line) {
        Ok(judged) => answer(alloc, machine, sessions, judged),
        Err(error) => Err(error),
    }
}

// The answer to a line that is too long.
fn answer_long<S: Store>(
    alloc: Global,
    machine: &mut Machine<S>,
    sessions: &mut Sessions,
) -> Result<Vec<u8>, NoMemory>
    requires history { HasHistory machine.old sessions.old }
    requires few { machine.old.board.version < 2 ^ 63 }
    requires few_frames { FewFrames machine.old }
    ensures { (line : List ℕ) → MOST_LINE < length line
        → AnswerGives line machine.old machine.new sessions.new (S.files machine.old.chain.store)
        (S.files machine.new.chain.store) (S.faults machine.old.chain.store)
        (S.faults machine.new.chain.store) result (λ text. text.items) }
{
    answer(alloc, machine, sessions, Err(ScriptFault::TooLong))
}

// The answer to a line that was read; `held` is what the reader holds.
fn answer_read<S: Store>(
    alloc: Global,
    machine: &mut Machine<S>,
    sessions: &mut Sessions,
    found: LineRead,
    held: &[u8],
) -> Result<Vec<u8>, NoMemory>
    requires short { found ≡ Line → length held.now ≤ 4096 }
    requires there { found ≡ End → ⊥ }
    requires history { HasHistory machine.old sessions.old }
    requires few { machine.old.board.version < 2 ^ 63 }
    requires few_frames { FewFrames machine.old }
    ensures { (line : List ℕ) → IsRead found line held.now
        → AnswerGives line machine.old machine.new sessions.new (S.files machine.old.chain.store)
        (S.files machine.new.chain.store) (S.faults machine.old.chain.store)
        (S.faults machine.new.chain.store) result (λ text. text.items) }
{
    match found {
        LineRead::Line => answer_line(alloc, machine, sessions, held),
        LineRead::Long | LineRead::End => answer_long(alloc, machine, sessions),
    }
}

/// Reads one line, answers it and writes the answer, whole, before anything else is read. Answers whether there was a
/// line. `sessions` is how far the machine's sessions have come. Condition: the version of the board and each session's
/// count of frames are below 2^63.
///
/// After `ReadFault` nothing was done. After `Memory` the steps that were made stay, and nothing of the answer was
/// written. After `WriteFault` the line was done, and a proper prefix of its answer was written.
pub fn answer_next<S: Store, I: Source, O: Sink>(
    alloc: Global,
    machine: &mut Machine<S>,
    sessions: &mut Sessions,
    reader: &mut LineReader,
    source: &mut I,
    sink: &mut O,
) -> Result<bool, DriveRefusal>
    requires history { HasHistory machine.old sessions.old }
    requires few { machine.old.board.version < 2 ^ 63 }
    requires few_frames { FewFrames machine.old }
    ensures answered { IfOk result
        (λ more.
        NextGives more (world_of machine.old) (run_state machine.old) (run_state machine.new)
        reader.old.kept reader.new.kept (I.rest source.old) (I.rest source.new)
        (O.written sink.old) (O.written sink.new)) }
    ensures stops { IfErr result
        (λ refusal.
        StopsNext refusal (world_of machine.old) (run_state machine.old) (run_state machine.new)
        reader.old.kept reader.new.kept (I.rest source.old) (I.rest source.new)
        (O.written sink.old) (O.written sink.new)) }
    ensures history { OnOk result (HasHistory machine.new sessions.new) }
    ensures keeps { LineKeeps machine.old machine.new (S.files machine.old.chain.store)
        (S.files machine.new.chain.store) (S.faults machine.old.chain.store)
        (S.faults machine.new.chain.store) }
    ensures source_later { I.faults source.old ≤ I.faults source.new }
    ensures sink_later { O.faults sink.old ≤ O.faults sink.new }
    ensures read_fault { IfErr result
        (OnlyIf ReadFault (Rose (I.faults source.old) (I.faults source.new))) }
    ensures write_fault { IfErr result
        (OnlyIf WriteFault (Rose (O.faults sink.old) (O.faults sink.new))) }
{
    let found = reader.read_line(source, MOST_LINE)?;
    if matches!(found, LineRead::End) {
        return Ok(false);
    }
    let text = answer_read(alloc, machine, sessions, found, reader.line())?;
    write_all(&text, sink)?;
    Ok(true)
}
