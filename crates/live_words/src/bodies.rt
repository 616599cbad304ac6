//! The answer that gives a body.

ghost use Rattle.std.specs.Prelude.{◌≡◌, IfOk};
ghost use Rattle.live_model.specs.LiveTexts.{given_text};

use frame_writer::{Part, add_line, end_line};
use grid_vertex::NoMemory;
use patch_body::Body;
use std::alloc::Global;

/// The answer that gives the patch's body: the patch, how many bytes there are, and the bytes as a patch file has them.
pub fn body_text(alloc: Global, patch: u32, body: &Body) -> Result<Vec<u8>, NoMemory>
    ensures { IfOk result (λ text. text.items ≡ given_text patch body.now) }
{
    let parts = [Part::Number(u64::from(patch)), Part::Number(body.size())];
    let mut text = Vec::new(alloc);
    add_line(alloc, "body", &parts, &mut text)?;
    text.extend_from_slice(body.bytes())?;
    end_line(alloc, &mut text)?;
    Ok(text)
}
