//! Lines of words with one space between them. A call that is refused leaves the text as it was.

ghost use Rattle.std.specs.Prelude.{◌≡◌, true, [], ◌∷◌, map, OnOk, OnErr};
ghost use Rattle.text_model.specs.Lines.{Adds, spaced, line_of, begins_line, with_word};
ghost use Rattle.frame_writer.specs.Appending.{Begins};
ghost use Rattle.frame_writer.specs.Parts.{part_text};

use crate::parts::{Part, write_part};
use crate::refused::undo_if_refused;
use grid_vertex::NoMemory;
use std::alloc::Global;

/// Appends a line's first word.
pub fn begin_line(_alloc: Global, word: &str, out: &mut Vec<u8>) -> Result<(), NoMemory>
    ensures ok { OnOk result (Adds out.old.items out.new.items word.now) }
    ensures err { OnErr result (out.new.items ≡ out.old.items) }
{
    out.extend_from_slice(word.as_bytes())?;
    Ok(())
}

/// Appends a space and the part, or a beginning of it.
pub fn write_spaced(part: Part, out: &mut Vec<u8>) -> Result<(), NoMemory>
    ensures ok { OnOk result (Adds out.old.items out.new.items (32 ∷ part_text part.entry)) }
    ensures err { OnErr result (Begins out.old.items out.new.items) }
{
    out.push(b' ')?;
    write_part(part, out)
}

/// Appends a space and the part.
pub fn add_part(_alloc: Global, part: Part, out: &mut Vec<u8>) -> Result<(), NoMemory>
    ensures ok { OnOk result (Adds out.old.items out.new.items (32 ∷ part_text part.entry)) }
    ensures err { OnErr result (out.new.items ≡ out.old.items) }
{
    let length = out.len();
    let written = write_spaced(part, out);
    undo_if_refused(written, length, out)
}

/// Appends a line feed.
pub fn end_line(_alloc: Global, out: &mut Vec<u8>) -> Result<(), NoMemory>
    ensures ok { OnOk result (Adds out.old.items out.new.items (10 ∷ [])) }
    ensures ended { OnOk result (begins_line out.new.items ≡ true) }
    ensures err { OnErr result (out.new.items ≡ out.old.items) }
{
    out.push(b'\n')?;
    Ok(())
}

/// Appends the parts, each behind a space, or a beginning of that.
fn write_parts(parts: &[Part], out: &mut Vec<u8>) -> Result<(), NoMemory>
    ensures ok { OnOk result (Adds out.old.items out.new.items (spaced (map part_text parts.now))) }
    ensures err { OnErr result (Begins out.old.items out.new.items) }
{
    for part in parts {
        write_spaced(*part, out)?;
    }
    Ok(())
}

/// Appends the parts, each behind a space.
pub fn add_parts(_alloc: Global, parts: &[Part], out: &mut Vec<u8>) -> Result<(), NoMemory>
    ensures ok { OnOk result (Adds out.old.items out.new.items (spaced (map part_text parts.now))) }
    ensures err { OnErr result (out.new.items ≡ out.old.items) }
{
    let length = out.len();
    let written = write_parts(parts, out);
    undo_if_refused(written, length, out)
}

/// Appends the line of this word and these parts, or a beginning of it.
pub fn write_line(
    alloc: Global,
    word: &str,
    parts: &[Part],
    out: &mut Vec<u8>,
) -> Result<(), NoMemory>
    ensures ok { OnOk result (Adds out.old.items out.new.items
        (line_of word.now (map part_text parts.now))) }
    ensures ended { OnOk result (begins_line out.new.items ≡ true) }
    ensures err { OnErr result (Begins out.old.items out.new.items) }
{
    begin_line(alloc, word, out)?;
    write_parts(parts, out)?;
    end_line(alloc, out)
}

/// Appends the line of this word and these parts.
pub fn add_line(
    alloc: Global,
    word: &str,
    parts: &[Part],
    out: &mut Vec<u8>,
) -> Result<(), NoMemory>
    ensures ok { OnOk result (Adds out.old.items out.new.items
        (line_of word.now (map part_text parts.now))) }
    ensures ended { OnOk result (begins_line out.new.items ≡ true) }
    ensures err { OnErr result (out.new.items ≡ out.old.items) }
{
    let length = out.len();
    let written = write_line(alloc, word, parts, out);
    undo_if_refused(written, length, out)
}

/// Tells whether nothing stands in the last line yet.
fn at_line_start(text: &[u8]) -> bool
    ensures { result ≡ begins_line text.now }
{
    match text.last() {
        Some(last) => *last == b'\n',
        None => true,
    }
}

/// Appends the part to the last line, or a beginning of it: behind a space, but at the line's beginning.
#[tactic(auto, unfolding(text_model::specs::Lines::with_word))]
fn write_word(part: Part, out: &mut Vec<u8>) -> Result<(), NoMemory>
    ensures ok { OnOk result (out.new.items ≡ with_word out.old.items (part_text part.entry)) }
    ensures err { OnErr result (Begins out.old.items out.new.items) }
{
    if at_line_start(out) {
        write_part(part, out)
    } else {
        write_spaced(part, out)
    }
}

/// Appends the part to the last line: behind a space, but at the line's beginning.
pub fn line_text(_alloc: Global, part: Part, out: &mut Vec<u8>) -> Result<(), NoMemory>
    ensures ok { OnOk result (out.new.items ≡ with_word out.old.items (part_text part.entry)) }
    ensures err { OnErr result (out.new.items ≡ out.old.items) }
{
    let length = out.len();
    let written = write_word(part, out);
    undo_if_refused(written, length, out)
}
