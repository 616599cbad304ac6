//! All that a source gives.

ghost use Rattle.std.specs.Prelude.{◌≡◌, ℕ, ◌+◌, ◌≤◌, length, IfOk, IfErr};
ghost use Rattle.view_outside.specs.Faults.{Rose};
ghost use Rattle.view_outside.specs.OnlyRead.{OnlyIf};
ghost use Rattle.line_reader.specs.Reads.{HasRead, ReadsAtMost, ReadsThrough};
ghost use Rattle.view_script.specs.declared.refusals.ScriptRefusal.TheVariants.{ReadFault};
ghost use Rattle.view_script.specs.Answers.{IsUnjudged};

use crate::refusals::ScriptRefusal;
use line_reader::read_piece;
use script_model::MOST_SCRIPT;
use std::alloc::Global;
use view_outside::Source;

// How many bytes are read at once.
const CHUNK: usize = 4_096;

// One byte more than a script has.
const MOST_READ: usize = MOST_SCRIPT as usize + 1;

/// Reads until the source ends, or until it gave one byte more than a script has.
pub fn read_bytes<I: Source>(alloc: Global, source: &mut I) -> Result<Vec<u8>, ScriptRefusal>
    ensures few { IfOk result (λ bytes. length bytes.items ≤ MOST_READ) }
    ensures front { IfOk result
        (λ bytes. HasRead (I.rest source.old) bytes.items (I.rest source.new)) }
    ensures through { IfOk result
        (λ _. ReadsThrough MOST_READ (I.rest source.old) (I.rest source.new)) }
    ensures read { ReadsAtMost MOST_READ (I.rest source.old) (I.rest source.new) }
    ensures later { I.faults source.old ≤ I.faults source.new }
    ensures cause { IfErr result
        (OnlyIf ReadFault (Rose (I.faults source.old) (I.faults source.new))) }
    ensures unjudged { IfErr result IsUnjudged }
{
    let mut bytes = Vec::new(alloc);
    let mut chunk = [0; CHUNK];
    while bytes.len() < MOST_READ {
        let room = CHUNK.min(MOST_READ - bytes.len());
        if read_piece(source, &mut chunk[..room], &mut bytes)? == 0 {
            return Ok(bytes);
        }
    }
    Ok(bytes)
}
