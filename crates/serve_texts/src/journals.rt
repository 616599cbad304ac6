//! The text of a tier's journal.

ghost use Rattle.std.specs.Prelude.{◌≡◌, true, OnOk, OnErr};
ghost use Rattle.text_model.specs.Lines.{Adds, begins_line};
ghost use Rattle.frame_writer.specs.Appending.{Begins};
ghost use Rattle.serve_model.specs.Journals.{journal_head, journal_text};

use crate::entries::add_entry;
use frame_writer::{Part, add_line, undo_if_refused};
use grid_vertex::NoMemory;
use std::alloc::Global;
use tier_model::Turn;

// Appends the line before the entries.
#[tactic(auto, unfolding(serve_model::specs::Journals::journal_head))]
fn add_head(alloc: Global, tier: u32, journal: &[Turn], out: &mut Vec<u8>) -> Result<(), NoMemory>
    ensures ok { OnOk result (Adds out.old.items out.new.items (journal_head tier journal.now)) }
    ensures ended { OnOk result (begins_line out.new.items ≡ true) }
    ensures err { OnErr result (out.new.items ≡ out.old.items) }
{
    let parts = [
        Part::Number(u64::from(tier)),
        Part::Number(journal.len() as u64),
    ];
    add_line(alloc, "journal", &parts, out)
}

// Appends the journal's text, or a beginning of it.
fn write_journal(
    alloc: Global,
    tier: u32,
    journal: &[Turn],
    out: &mut Vec<u8>,
) -> Result<(), NoMemory>
    ensures ok { OnOk result (Adds out.old.items out.new.items (journal_text tier journal.now)) }
    ensures ended { OnOk result (begins_line out.new.items ≡ true) }
    ensures err { OnErr result (Begins out.old.items out.new.items) }
{
    add_head(alloc, tier, journal, out)?;
    for entry in journal {
        add_entry(alloc, *entry, out)?;
    }
    Ok(())
}

/// Appends the text of the journal of the tier of this number: how many entries it has, and each of them.
pub fn add_journal(
    alloc: Global,
    tier: u32,
    journal: &[Turn],
    out: &mut Vec<u8>,
) -> Result<(), NoMemory>
    ensures ok { OnOk result (Adds out.old.items out.new.items (journal_text tier journal.now)) }
    ensures ended { OnOk result (begins_line out.new.items ≡ true) }
    ensures err { OnErr result (out.new.items ≡ out.old.items) }
{
    let length = out.len();
    let written = write_journal(alloc, tier, journal, out);
    undo_if_refused(written, length, out)
}
