//! The commands over a strip, for which no file is read.

ghost use Rattle.std.specs.Prelude.{◌≡◌, map, string_bytes, IfSome};
ghost use Rattle.number_words.specs.Numbers.{number_in};
ghost use Rattle.text_model.specs.declared.statuses.Status.TheVariants.{WriteFault};
ghost use Rattle.view_outside.specs.Faults.{Rose};
ghost use Rattle.view_outside.specs.OnlyRead.{OnlyIf};
ghost use Rattle.viewer_program.specs.Endings.{Ends, IsQuiet};
ghost use Rattle.strip_laws.specs.declared.limits.TheConstants.{MOST_COLUMNS as MOST};
ghost use Rattle.bench_laws.specs.BenchRuns.{IsBenchText};
ghost use Rattle.viewer_program.specs.Strips.{IsColumns, columns_from, strip_command_in, strip_command_with, HasColumns, IsStripText, IsStripOutput, IsForMemory};

use bench_run::bench;
use mesh_maker::{MOST_COLUMNS, strip};
use number_words::read_number;
use patch_file::write_file;
use std::alloc::Global;
use text_model::Status;
use view_outside::{Sink, write_all};

/// A command over the strip of so many columns.
#[derive(Clone, Copy, Debug, PartialEq, Eq)]
pub enum StripCommand {
    /// Writes the strip's file.
    Make(u32),
    /// Runs a session over the strip, and tells what came of it.
    Bench(u32),
}

/// The command over a strip that the words ask for; none where they ask for none.
pub fn strip_command_of(words: &[String]) -> Option<StripCommand>
    ensures value { result ≡ strip_command_in (map string_bytes words.now) }
    ensures columns { IfSome result HasColumns }
{
    match words {
        [first, word] => command_with(first.as_str(), columns_of(word.as_str())),
        _ => None,
    }
}

// The command of its word and the columns behind it.
fn command_with(first: &str, columns: Option<u32>) -> Option<StripCommand>
    requires { IfSome columns IsColumns }
    ensures value { result ≡ strip_command_with first.now columns }
    ensures columns { IfSome result HasColumns }
{
    match first {
        "make" => columns.map(StripCommand::Make),
        "bench" => columns.map(StripCommand::Bench),
        _ => None,
    }
}

// The columns that a word spells.
fn columns_of(word: &str) -> Option<u32>
    ensures value { result ≡ columns_from (number_in MOST word.now) }
    ensures columns { IfSome result IsColumns }
{
    let columns = read_number(word.as_bytes(), u64::from(MOST_COLUMNS))? as u32;
    if columns < 2 || columns % 2 != 0 {
        return None;
    }
    Some(columns)
}

/// Does what the command asks for.
pub fn run_strip_command<O: Sink>(alloc: Global, command: StripCommand, sink: &mut O) -> Status
    requires { HasColumns command }
    ensures makes { Ends (IsStripOutput command) IsForMemory result (O.written sink.old)
        (O.written sink.new) }
    ensures quiet { IsQuiet result (O.written sink.old) (O.written sink.new) }
    ensures write_fault { OnlyIf WriteFault (Rose (O.faults sink.old) (O.faults sink.new)) result }
{
    match command {
        StripCommand::Make(columns) => write_strip(alloc, columns, sink),
        StripCommand::Bench(columns) => write_summary(alloc, columns, sink),
    }
}

// Writes the summary of a bench run over the strip of so many columns.
fn write_summary<O: Sink>(alloc: Global, columns: u32, sink: &mut O) -> Status
    requires { IsColumns columns }
    ensures makes { Ends (IsBenchText columns) IsForMemory result (O.written sink.old)
        (O.written sink.new) }
    ensures quiet { IsQuiet result (O.written sink.old) (O.written sink.new) }
    ensures write_fault { OnlyIf WriteFault (Rose (O.faults sink.old) (O.faults sink.new)) result }
{
    let Ok(text) = bench(alloc, columns) else {
        return Status::Memory;
    };
    match write_all(&text, sink) {
        Ok(()) => Status::Ok,
        Err(_) => Status::WriteFault,
    }
}

// Writes the strip of so many columns as a patch file of version 1.
fn write_strip<O: Sink>(alloc: Global, columns: u32, sink: &mut O) -> Status
    requires { IsColumns columns }
    ensures makes { Ends (IsStripText columns) IsForMemory result (O.written sink.old)
        (O.written sink.new) }
    ensures quiet { IsQuiet result (O.written sink.old) (O.written sink.new) }
    ensures write_fault { OnlyIf WriteFault (Rose (O.faults sink.old) (O.faults sink.new)) result }
{
    let Ok(parts) = strip(alloc, columns) else {
        return Status::Memory;
    };
    match write_file(&parts, sink) {
        Ok(()) => Status::Ok,
        Err(_) => Status::WriteFault,
    }
}
