//! Lists of numbers and of answers, as words.

ghost use Rattle.std.specs.Prelude.{map, OnOk, OnErr};
ghost use Rattle.text_model.specs.FrameText.{try_text};
ghost use Rattle.text_model.specs.Lines.{Adds, spaced, decimals};
ghost use Rattle.frame_writer.specs.Appending.{Begins};

use crate::lines::write_spaced;
use crate::parts::Part;
use grid_vertex::NoMemory;
use patch_file::Try;

/// Appends the numbers, each behind a space, or a beginning of that.
pub fn write_number_words(numbers: &[u32], out: &mut Vec<u8>) -> Result<(), NoMemory>
    ensures ok { OnOk result (Adds out.old.items out.new.items (spaced (decimals numbers.now))) }
    ensures err { OnErr result (Begins out.old.items out.new.items) }
{
    for number in numbers {
        write_spaced(Part::Number(u64::from(*number)), out)?;
    }
    Ok(())
}

/// Appends the answers, each behind a space, or a beginning of that.
pub fn write_try_words(tries: &[Try], out: &mut Vec<u8>) -> Result<(), NoMemory>
    ensures ok { OnOk result (Adds out.old.items out.new.items (spaced (map try_text tries.now))) }
    ensures err { OnErr result (Begins out.old.items out.new.items) }
{
    for answer in tries {
        write_spaced(Part::Answer(*answer), out)?;
    }
    Ok(())
}
