//! The parts of a line.

ghost use Rattle.std.specs.Prelude.{[], ◌∷◌, OnOk, OnErr};
ghost use Rattle.text_model.specs.FrameText.{try_text};
ghost use Rattle.text_model.specs.Lines.{Adds};
ghost use Rattle.frame_writer.specs.Appending.{Begins};
ghost use Rattle.frame_writer.specs.Parts.{part_text};

use grid_vertex::NoMemory;
use itoa::{Buffer, Integer};
use patch_file::Try;

/// A word, a number or an answer to a try, as it stands in a line.
#[derive(Clone, Copy, Debug, PartialEq, Eq)]
pub enum Part<'a> {
    Word(&'a str),
    Number(u64),
    Signed(i128),
    Answer(Try),
}

/// Appends the number in decimal.
pub fn write_number<I: Integer>(number: I, out: &mut Vec<u8>) -> Result<(), NoMemory>
    ensures ok { OnOk result (Adds out.old.items out.new.items (I.text number)) }
    ensures err { OnErr result (Begins out.old.items out.new.items) }
{
    out.extend_from_slice(Buffer::new().format(number).as_bytes())?;
    Ok(())
}

/// Appends the patch, a colon and the epoch.
#[tactic(auto, unfolding(text_model::specs::FrameText::try_text))]
pub fn write_try(answer: Try, out: &mut Vec<u8>) -> Result<(), NoMemory>
    ensures ok { OnOk result (Adds out.old.items out.new.items (try_text answer)) }
    ensures err { OnErr result (Begins out.old.items out.new.items) }
{
    write_number(answer.patch, out)?;
    out.push(b':')?;
    write_number(answer.epoch, out)
}

/// Appends the part.
pub fn write_part(part: Part, out: &mut Vec<u8>) -> Result<(), NoMemory>
    ensures ok { OnOk result (Adds out.old.items out.new.items (part_text part.entry)) }
    ensures err { OnErr result (Begins out.old.items out.new.items) }
{
    match part {
        Part::Word(word) => {
            out.extend_from_slice(word.as_bytes())?;
            Ok(())
        }
        Part::Number(number) => write_number(number, out),
        Part::Signed(number) => write_number(number, out),
        Part::Answer(answer) => write_try(answer, out),
    }
}
