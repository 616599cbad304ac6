//! The commands, from their words to their status.

ghost use Rattle.std.specs.Prelude.{◌≡◌, ◌↔◌, map, string_bytes, IfSome, IsNone, OnErr};
ghost use Rattle.text_model.specs.declared.statuses.Status.TheVariants.{Usage, ReadFault, WriteFault};
ghost use Rattle.view_outside.specs.Faults.{Rose};
ghost use Rattle.view_outside.specs.Files.{HasName, LacksName};
ghost use Rattle.view_outside.specs.OnlyRead.{OnlyIf};
ghost use Rattle.view_outside.specs.Written.{Wrote};
ghost use Rattle.viewer_program.specs.Commands.{IsKnown};
ghost use Rattle.viewer_program.specs.Answers.{IsTextOf, IsOfAccepted, IsTextOfKind};
ghost use Rattle.viewer_program.specs.Endings.{StopsAt, CanStop, Ends, IsChange, IsQuiet};
ghost use Rattle.viewer_program.specs.Outputs.{output_text, IsWritable};
ghost use Rattle.viewer_program.specs.Outside.{outside_seen};
ghost use Rattle.viewer_program.specs.StillEnds.{StillEnds};
ghost use Rattle.viewer_program.specs.Strips.{strip_command_in, IsStripOutput, IsForMemory};
ghost use Rattle.viewer_program.specs.Told.{named_bytes};
ghost use Rattle.viewer_program.specs.WideTold.{IsBehindLoads};

use crate::commands::{FileCommand, command_of, file_name};
use crate::living::run_live;
use crate::outputs::{Output, command_output};
use crate::playing::run_play;
use crate::plays::{live_of, play_of};
use crate::strips::{run_strip_command, strip_command_of};
use patch_file::write_file;
use std::alloc::Global;
use text_model::Status;
use view_outside::{Sink, Source, Store, write_all};

// Writes all that a command writes, or a proper beginning where the sink fails.
fn write_output<O: Sink>(output: &Output, sink: &mut O) -> Result<(), view_outside::WriteFault>
    requires { IsWritable output.now }
    ensures text { Wrote result (O.written sink.old) (O.written sink.new)
        (output_text output.now) }
    ensures cause { OnErr result (Rose (O.faults sink.old) (O.faults sink.new)) }
{
    match output {
        Output::Text(text) => write_all(text, sink),
        Output::File(parts) => write_file(parts, sink),
    }
}

// Writes what the command asks for of the file of this name.
fn run_command<S: Store, O: Sink>(
    alloc: Global,
    command: &FileCommand,
    name: &str,
    store: &mut S,
    sink: &mut O,
) -> Status
    requires { IsKnown command.now }
    ensures told { IfSome (named_bytes (S.files store.old) name.now)
        (λ bytes.
        Ends (IsOfAccepted (IsTextOf command.now) bytes) (StopsAt command.now bytes) result
        (O.written sink.old) (O.written sink.new)) }
    ensures statuses { Ends (IsTextOfKind command.now) (CanStop command.now) result (O.written sink.old)
        (O.written sink.new) }
    ensures changed { IsChange result }
    ensures wide { IsBehindLoads (named_bytes (S.files store.old) name.now) (S.taken store.old)
        (S.taken store.new) result }
    ensures quiet { IsQuiet result (O.written sink.old) (O.written sink.new) }
    ensures read_fault { OnlyIf ReadFault
        (HasName (S.files store.old) name.now → Rose (S.faults store.old) (S.faults store.new))
        result }
    ensures missing { LacksName (S.files store.old) name.now → result ≡ ReadFault }
    ensures write_fault { OnlyIf WriteFault (Rose (O.faults sink.old) (O.faults sink.new)) result }
    ensures command { result ≡ Usage → ⊥ }
{
    let Ok(file) = store.find(name) else {
        return Status::ReadFault;
    };
    match command_output(alloc, command, store, file) {
        Ok(output) => match write_output(&output, sink) {
            Ok(()) => Status::Ok,
            Err(_) => Status::WriteFault,
        },
        Err(status) => status,
    }
}

// Runs a command that reads no file.
fn run_without_file<O: Sink>(alloc: Global, words: &[String], sink: &mut O) -> Status
    ensures usage { (result ≡ Usage) ↔ IsNone (strip_command_in (map string_bytes words.now)) }
    ensures makes { IfSome (strip_command_in (map string_bytes words.now))
        (λ command. Ends (IsStripOutput command) IsForMemory result (O.written sink.old)
        (O.written sink.new)) }
    ensures idle { result ≡ Usage
        → (O.written sink.new ≡ O.written sink.old) × (O.faults sink.new ≡ O.faults sink.old) }
    ensures changed { IsChange result }
    ensures quiet { IsQuiet result (O.written sink.old) (O.written sink.new) }
    ensures write_fault { OnlyIf WriteFault (Rose (O.faults sink.old) (O.faults sink.new)) result }
{
    match strip_command_of(words) {
        Some(command) => run_strip_command(alloc, command, sink),
        None => Status::Usage,
    }
}

/// Runs the command that the words name, on one thread. The words don't include the program's name.
///
/// `docs/TEXTS.md` has the statuses. `play` and `playw` read the script from the source, `live` a driver's lines.
pub fn run_still<S: Store, I: Source, O: Sink>(
    alloc: Global,
    words: &[String],
    store: &mut S,
    script: &mut I,
    sink: &mut O,
) -> Status
    ensures { StillEnds (map string_bytes words.now)
        (outside_seen (S.files store.old) (S.faults store.old) (S.taken store.old)
        (I.rest script.old) (I.faults script.old) (O.written sink.old) (O.faults sink.old))
        (outside_seen (S.files store.new) (S.faults store.new) (S.taken store.new)
        (I.rest script.new) (I.faults script.new) (O.written sink.new) (O.faults sink.new))
        result }
{
    match command_of(words) {
        Some(command) => run_command(alloc, &command, file_name(words), store, sink),
        None => match play_of(words) {
            Some(play) => run_play(alloc, &play, file_name(words), store, script, sink),
            None => match live_of(words) {
                Some(play) => run_live(alloc, &play, file_name(words), store, script, sink),
                None => run_without_file(alloc, words, sink),
            },
        },
    }
}
