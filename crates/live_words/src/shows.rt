//! The answer that shows a frame.

ghost use Rattle.std.specs.Prelude.{◌≡◌, length, IfOk};
ghost use Rattle.text_model.specs.FrameText.{Frame};
ghost use Rattle.live_model.specs.LiveTexts.{show_line, show_text};
ghost use Rattle.live_words.specs.Shows.{HasParts};

use frame_writer::{Part, add_line, write_front};
use grid_vertex::NoMemory;
use patch_file::Try;
use std::alloc::Global;

// The first line of a shown frame.
#[tactic(auto, unfolding(live_model::specs::LiveTexts::show_line))]
fn first_line(
    alloc: Global,
    session: u32,
    number: u64,
    triangles: u64,
    cut: &[u32],
    patches: &[u32],
) -> Result<Vec<u8>, NoMemory>
    ensures { IfOk result
        (λ text. (frame : Frame) → frame.session ≡ session → frame.number ≡ number
        → length frame.triangles ≡ triangles → frame.cut ≡ cut.now → frame.patches ≡ patches.now
        → text.items ≡ show_line frame) }
{
    let parts = [
        Part::Number(u64::from(session)),
        Part::Number(number),
        Part::Word("nodes"),
        Part::Number(cut.len() as u64),
        Part::Word("patches"),
        Part::Number(patches.len() as u64),
        Part::Word("triangles"),
        Part::Number(triangles),
    ];
    let mut text = Vec::new(alloc);
    add_line(alloc, "show", &parts, &mut text)?;
    Ok(text)
}

/// The answer that shows a frame of these parts.
pub fn show_text(
    alloc: Global,
    session: u32,
    number: u64,
    triangles: u64,
    cut: &[u32],
    tries: &[Try],
    patches: &[u32],
) -> Result<Vec<u8>, NoMemory>
    ensures { IfOk result
        (λ text. (frame : Frame)
        → HasParts session number triangles cut.now tries.now patches.now frame
        → text.items ≡ show_text frame) }
{
    let mut text = first_line(alloc, session, number, triangles, cut, patches)?;
    write_front(alloc, cut, tries, patches, &mut text)?;
    Ok(text)
}
