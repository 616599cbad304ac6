//! How a status is told: its line and its code.

ghost use Rattle.std.specs.Prelude.{◌≡◌, ◌∷◌, true, OnOk, OnErr, IfSome, is_none, codes, decimal};
ghost use Rattle.text_model.specs.Lines.{Adds, begins_line, decimals, line_of};
ghost use Rattle.text_model.specs.StatusText as texts;
ghost use Rattle.frame_writer.specs.Appending.{Begins};
ghost use Rattle.viewer_program.specs.Numbered.{has_numbers};

use crate::faults::{add_mesh_fault, add_script_fault};
use file_model::FileFault;
use frame_writer::{
    Part, add_file_fault, add_line, add_part, begin_line, end_line, undo_if_refused,
};
use grid_vertex::NoMemory;
use mesh_model::{DagFault, Refusal};
use std::alloc::Global;
use text_model::{ScriptFault, Status};

fn add_file_line(alloc: Global, fault: FileFault, out: &mut Vec<u8>) -> Result<(), NoMemory>
    ensures ok { OnOk result
        (Adds out.old.items out.new.items (line_of (codes "file") (texts.file_fault_words fault))) }
    ensures err { OnErr result (Begins out.old.items out.new.items) }
{
    begin_line(alloc, "file", out)?;
    add_file_fault(alloc, fault, out)?;
    end_line(alloc, out)
}

fn add_mesh_line(alloc: Global, fault: DagFault, out: &mut Vec<u8>) -> Result<(), NoMemory>
    ensures ok { OnOk result
        (Adds out.old.items out.new.items (line_of (codes "file") (texts.mesh_fault_words fault))) }
    ensures err { OnErr result (Begins out.old.items out.new.items) }
{
    begin_line(alloc, "file", out)?;
    add_mesh_fault(alloc, fault, out)?;
    end_line(alloc, out)
}

fn add_script_line(alloc: Global, fault: ScriptFault, out: &mut Vec<u8>) -> Result<(), NoMemory>
    ensures ok { OnOk result
        (Adds out.old.items out.new.items
        (line_of (codes "script") (decimals (texts.script_fault_numbers fault)))) }
    ensures err { OnErr result (Begins out.old.items out.new.items) }
{
    begin_line(alloc, "script", out)?;
    add_script_fault(alloc, fault, out)?;
    end_line(alloc, out)
}

fn add_changed_line(
    alloc: Global,
    patch: u32,
    fault: FileFault,
    out: &mut Vec<u8>,
) -> Result<(), NoMemory>
    ensures ok { OnOk result
        (Adds out.old.items out.new.items
        (line_of (codes "changed") (decimal patch ∷ texts.file_fault_words fault))) }
    ensures err { OnErr result (Begins out.old.items out.new.items) }
{
    begin_line(alloc, "changed", out)?;
    add_part(alloc, Part::Number(u64::from(patch)), out)?;
    add_file_fault(alloc, fault, out)?;
    end_line(alloc, out)
}

/// The line of a status without numbers, which takes no memory. Ok has an empty one.
#[tactic(auto, unfolding(text_model::specs::StatusText::status_text, text_model::specs::Lines::line_of, text_model::specs::Lines::spaced))]
pub fn plain_line(status: &Status) -> Option<&'static str>
    ensures line { IfSome result (λ line. line.now ≡ texts.status_text status.now) }
    ensures numbers { is_none result ≡ has_numbers status.now }
{
    match status {
        Status::Ok => Some(""),
        Status::Usage => Some("usage\n"),
        Status::ReadFault => Some("read fault\n"),
        Status::WriteFault => Some("write fault\n"),
        Status::Memory => Some("memory\n"),
        Status::Refused(_)
        | Status::Script(_)
        | Status::Budget { .. }
        | Status::Changed(..)
        | Status::Wide(_) => None,
    }
}

// Appends the line of a status with numbers, or a beginning of it.
#[tactic(auto, unfolding(text_model::specs::StatusText::status_text))]
fn write_numbered_line(alloc: Global, status: &Status, out: &mut Vec<u8>) -> Result<(), NoMemory>
    requires { has_numbers status.now ≡ true }
    ensures ok { OnOk result (Adds out.old.items out.new.items (texts.status_text status.now)) }
    ensures err { OnErr result (Begins out.old.items out.new.items) }
{
    match *status {
        Status::Refused(Refusal::File(fault)) => add_file_line(alloc, fault, out),
        Status::Refused(Refusal::Dag(fault)) => add_mesh_line(alloc, fault, out),
        Status::Script(fault) => add_script_line(alloc, fault, out),
        Status::Budget { need, given } => {
            let numbers = [Part::Number(need), Part::Number(given)];
            add_line(alloc, "budget", &numbers, out)
        }
        Status::Changed(patch, fault) => add_changed_line(alloc, patch, fault, out),
        Status::Wide(patch) => add_line(alloc, "wide", &[Part::Number(u64::from(patch))], out),
        Status::Ok | Status::Usage | Status::ReadFault | Status::WriteFault | Status::Memory => {
            Ok(())
        }
    }
}

// Appends the line that tells the status, or a beginning of it.
fn write_status(alloc: Global, status: &Status, out: &mut Vec<u8>) -> Result<(), NoMemory>
    ensures ok { OnOk result (Adds out.old.items out.new.items (texts.status_text status.now)) }
    ensures err { OnErr result (Begins out.old.items out.new.items) }
{
    match plain_line(status) {
        Some(line) => Ok(out.extend_from_slice(line.as_bytes())?),
        None => write_numbered_line(alloc, status, out),
    }
}

/// Appends the line that tells the status. The status Ok has none. A call that is refused leaves the text as
/// it was.
pub fn status_text(alloc: Global, status: &Status, out: &mut Vec<u8>) -> Result<(), NoMemory>
    requires { begins_line out.old.items ≡ true }
    ensures ok { OnOk result (Adds out.old.items out.new.items (texts.status_text status.now)) }
    ensures err { OnErr result (out.new.items ≡ out.old.items) }
{
    let length = out.len();
    let written = write_status(alloc, status, out);
    undo_if_refused(written, length, out)
}

/// The code with which the program ends.
pub fn status_code(status: &Status) -> u8
    ensures { result ≡ texts.status_code status.now }
{
    match status {
        Status::Ok => 0,
        Status::Usage => 2,
        Status::Refused(_) => 3,
        Status::ReadFault => 4,
        Status::WriteFault => 5,
        Status::Script(_) => 6,
        Status::Budget { .. } => 7,
        Status::Memory => 8,
        Status::Changed(..) => 9,
        Status::Wide(_) => 10,
    }
}
