//! The lines of what tiers hold. A call that is refused leaves the text as it was.

ghost use Rattle.std.specs.Prelude.{◌≡◌, true, map, OnOk, OnErr};
ghost use Rattle.text_model.specs.Lines.{Adds, begins_line, decimals, spaced};
ghost use Rattle.frame_writer.specs.Appending.{Begins};
ghost use Rattle.tier_model.specs.declared.turns.Coming.{Coming};
ghost use Rattle.run_model.specs.Lines.{tier_status};
ghost use Rattle.run_model.specs.LineTexts.{tier_line};

use frame_writer::{Part, add_part, add_parts, begin_line, end_line, undo_if_refused};
use grid_vertex::NoMemory;
use std::alloc::Global;
use tier_budget::Tier;
use tier_model::Coming;

/// Appends the numbers of the patches that come, each behind a space, or a beginning of that.
fn write_coming(alloc: Global, coming: &[Coming], out: &mut Vec<u8>) -> Result<(), NoMemory>
    ensures ok { OnOk result (Adds out.old.items out.new.items
        (spaced (decimals (map (λ (c : Coming). c.patch) coming.now)))) }
    ensures err { OnErr result (Begins out.old.items out.new.items) }
{
    for one in coming {
        add_part(alloc, Part::Number(u64::from(one.patch)), out)?;
    }
    Ok(())
}

/// Appends the line of the tier, or a beginning of it.
#[tactic(auto, unfolding(run_model::specs::LineTexts::tier_line))]
fn write_tier(alloc: Global, number: u32, tier: &Tier, out: &mut Vec<u8>) -> Result<(), NoMemory>
    ensures ok { OnOk result (Adds out.old.items out.new.items
        (tier_line number (tier_status tier.now.state))) }
    ensures ended { OnOk result (begins_line out.new.items ≡ true) }
    ensures err { OnErr result (Begins out.old.items out.new.items) }
{
    let parts = [
        Part::Number(u64::from(number)),
        Part::Word("budget"),
        Part::Number(tier.budget()),
        Part::Word("load"),
        Part::Number(tier.load()),
        Part::Word("held"),
        Part::Number(u64::from(tier.held_count())),
        Part::Word("coming"),
    ];
    begin_line(alloc, "tier", out)?;
    add_parts(alloc, &parts, out)?;
    write_coming(alloc, tier.coming(), out)?;
    end_line(alloc, out)
}

/// Appends the line of what the tier of this number holds, and of the patches that come to it. Budget and
/// load are in bytes.
pub fn add_tier(alloc: Global, number: u32, tier: &Tier, out: &mut Vec<u8>) -> Result<(), NoMemory>
    ensures ok { OnOk result (Adds out.old.items out.new.items
        (tier_line number (tier_status tier.now.state))) }
    ensures ended { OnOk result (begins_line out.new.items ≡ true) }
    ensures err { OnErr result (out.new.items ≡ out.old.items) }
{
    let length = out.len();
    let written = write_tier(alloc, number, tier, out);
    undo_if_refused(written, length, out)
}
