//! The lines of turns. A call that is refused leaves the text as it was.

ghost use Rattle.std.specs.Prelude.{◌≡◌, true, [], ◌∷◌, codes, OnOk, OnErr};
ghost use Rattle.std.specs.Fmt.{decimal};
ghost use Rattle.text_model.specs.Lines.{Adds, begins_line, line_of};
ghost use Rattle.text_model.specs.StatusText.{file_fault_words};
ghost use Rattle.frame_writer.specs.Appending.{Begins};
ghost use Rattle.run_model.specs.LineTexts.{turn_line};

use file_model::FileFault;
use frame_writer::{
    Part, add_file_fault, add_line, add_parts, begin_line, end_line, undo_if_refused,
};
use grid_vertex::NoMemory;
use std::alloc::Global;
use tier_model::Turn;

/// Appends the line of a turn that found a patch changed, or a beginning of it.
fn write_changed(
    alloc: Global,
    tier: u32,
    patch: u32,
    fault: FileFault,
    out: &mut Vec<u8>,
) -> Result<(), NoMemory>
    ensures ok { OnOk result (Adds out.old.items out.new.items (line_of (codes "turn")
        (decimal tier ∷ codes "changed" ∷ decimal patch ∷ file_fault_words fault))) }
    ensures ended { OnOk result (begins_line out.new.items ≡ true) }
    ensures err { OnErr result (Begins out.old.items out.new.items) }
{
    let parts = [
        Part::Number(u64::from(tier)),
        Part::Word("changed"),
        Part::Number(u64::from(patch)),
    ];
    begin_line(alloc, "turn", out)?;
    add_parts(alloc, &parts, out)?;
    add_file_fault(alloc, fault, out)?;
    end_line(alloc, out)
}

/// Appends the line of a turn that found a patch changed.
fn add_changed(
    alloc: Global,
    tier: u32,
    patch: u32,
    fault: FileFault,
    out: &mut Vec<u8>,
) -> Result<(), NoMemory>
    ensures ok { OnOk result (Adds out.old.items out.new.items (line_of (codes "turn")
        (decimal tier ∷ codes "changed" ∷ decimal patch ∷ file_fault_words fault))) }
    ensures ended { OnOk result (begins_line out.new.items ≡ true) }
    ensures err { OnErr result (out.new.items ≡ out.old.items) }
{
    let length = out.len();
    let written = write_changed(alloc, tier, patch, fault, out);
    undo_if_refused(written, length, out)
}

/// Appends the line of a turn that tells of one patch.
fn add_of_patch(
    alloc: Global,
    tier: u32,
    word: &str,
    patch: u32,
    out: &mut Vec<u8>,
) -> Result<(), NoMemory>
    ensures ok { OnOk result (Adds out.old.items out.new.items
        (line_of (codes "turn") (decimal tier ∷ word.now ∷ decimal patch ∷ []))) }
    ensures ended { OnOk result (begins_line out.new.items ≡ true) }
    ensures err { OnErr result (out.new.items ≡ out.old.items) }
{
    let parts = [
        Part::Number(u64::from(tier)),
        Part::Word(word),
        Part::Number(u64::from(patch)),
    ];
    add_line(alloc, "turn", &parts, out)
}

/// Appends the line of a turn of the tier of this number; 0 is the top.
#[tactic(auto, unfolding(run_model::specs::LineTexts::turn_line))]
pub fn add_turn(alloc: Global, tier: u32, turn: Turn, out: &mut Vec<u8>) -> Result<(), NoMemory>
    ensures ok { OnOk result (Adds out.old.items out.new.items (turn_line tier turn)) }
    ensures ended { OnOk result (begins_line out.new.items ≡ true) }
    ensures err { OnErr result (out.new.items ≡ out.old.items) }
{
    match turn {
        Turn::Reserve(patch) => add_of_patch(alloc, tier, "reserve", patch, out),
        Turn::Evict(patch) => add_of_patch(alloc, tier, "evict", patch, out),
        Turn::Kept(patch, uses) => {
            let parts = [
                Part::Number(u64::from(tier)),
                Part::Word("kept"),
                Part::Number(u64::from(patch)),
                Part::Number(u64::from(uses)),
            ];
            add_line(alloc, "turn", &parts, out)
        }
        Turn::Got(patch) => add_of_patch(alloc, tier, "got", patch, out),
        Turn::Lost(patch) => add_of_patch(alloc, tier, "lost", patch, out),
        Turn::Fault(patch) => add_of_patch(alloc, tier, "fault", patch, out),
        Turn::Changed(patch, fault) => add_changed(alloc, tier, patch, fault, out),
        Turn::Commit(patch) => add_of_patch(alloc, tier, "commit", patch, out),
        Turn::Idle => {
            let parts = [Part::Number(u64::from(tier)), Part::Word("idle")];
            add_line(alloc, "turn", &parts, out)
        }
    }
}
