//! The line of an entry of a journal.

ghost use Rattle.std.specs.Prelude.{◌≡◌, true, [], ◌∷◌, codes, OnOk, OnErr};
ghost use Rattle.std.specs.Fmt.{decimal};
ghost use Rattle.text_model.specs.Lines.{Adds, begins_line, line_of};
ghost use Rattle.text_model.specs.StatusText.{file_fault_words};
ghost use Rattle.frame_writer.specs.Appending.{Begins};
ghost use Rattle.serve_model.specs.Journals.{entry_line};

use file_model::FileFault;
use frame_writer::{
    Part, add_file_fault, add_line, add_parts, begin_line, end_line, undo_if_refused,
};
use grid_vertex::NoMemory;
use std::alloc::Global;
use tier_model::Turn;

// Appends the line of an entry that tells of a changed patch, or a beginning of it.
fn write_changed(
    alloc: Global,
    patch: u32,
    fault: FileFault,
    out: &mut Vec<u8>,
) -> Result<(), NoMemory>
    ensures ok { OnOk result (Adds out.old.items out.new.items
        (line_of (codes "changed") (decimal patch ∷ file_fault_words fault))) }
    ensures ended { OnOk result (begins_line out.new.items ≡ true) }
    ensures err { OnErr result (Begins out.old.items out.new.items) }
{
    begin_line(alloc, "changed", out)?;
    add_parts(alloc, &[Part::Number(u64::from(patch))], out)?;
    add_file_fault(alloc, fault, out)?;
    end_line(alloc, out)
}

// Appends the line of an entry that tells of a changed patch.
fn add_changed(
    alloc: Global,
    patch: u32,
    fault: FileFault,
    out: &mut Vec<u8>,
) -> Result<(), NoMemory>
    ensures ok { OnOk result (Adds out.old.items out.new.items
        (line_of (codes "changed") (decimal patch ∷ file_fault_words fault))) }
    ensures ended { OnOk result (begins_line out.new.items ≡ true) }
    ensures err { OnErr result (out.new.items ≡ out.old.items) }
{
    let length = out.len();
    let written = write_changed(alloc, patch, fault, out);
    undo_if_refused(written, length, out)
}

// Appends the line of an entry that tells of one patch.
fn add_of_patch(alloc: Global, word: &str, patch: u32, out: &mut Vec<u8>) -> Result<(), NoMemory>
    ensures ok { OnOk result (Adds out.old.items out.new.items
        (line_of word.now (decimal patch ∷ []))) }
    ensures ended { OnOk result (begins_line out.new.items ≡ true) }
    ensures err { OnErr result (out.new.items ≡ out.old.items) }
{
    add_line(alloc, word, &[Part::Number(u64::from(patch))], out)
}

/// Appends the line of an entry of a journal.
#[tactic(auto, unfolding(serve_model::specs::Journals::entry_line))]
pub fn add_entry(alloc: Global, entry: Turn, out: &mut Vec<u8>) -> Result<(), NoMemory>
    ensures ok { OnOk result (Adds out.old.items out.new.items (entry_line entry)) }
    ensures ended { OnOk result (begins_line out.new.items ≡ true) }
    ensures err { OnErr result (out.new.items ≡ out.old.items) }
{
    match entry {
        Turn::Reserve(patch) => add_of_patch(alloc, "reserve", patch, out),
        Turn::Evict(patch) => add_of_patch(alloc, "evict", patch, out),
        Turn::Kept(patch, uses) => {
            let parts = [
                Part::Number(u64::from(patch)),
                Part::Number(u64::from(uses)),
            ];
            add_line(alloc, "kept", &parts, out)
        }
        Turn::Got(patch) => add_of_patch(alloc, "got", patch, out),
        Turn::Lost(patch) => add_of_patch(alloc, "lost", patch, out),
        Turn::Fault(patch) => add_of_patch(alloc, "fault", patch, out),
        Turn::Changed(patch, fault) => add_changed(alloc, patch, fault, out),
        Turn::Commit(patch) => add_of_patch(alloc, "commit", patch, out),
        Turn::Idle => add_line(alloc, "idle", &[], out),
    }
}
