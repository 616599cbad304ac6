//! Pieces of a source.

ghost use Rattle.std.specs.Prelude.{◌≡◌, ℕ, ◌<◌, ◌≤◌, length, IfOk, IfErr};
ghost use Rattle.view_outside.specs.Faults.{Rose};
ghost use Rattle.view_outside.specs.OnlyRead.{OnlyIf};
ghost use Rattle.line_reader.specs.declared.refusals.LineRefusal.TheVariants.{ReadFault};
ghost use Rattle.line_reader.specs.Reads.{ReadsAtMost, IsAtEnd, AddsFirst};

use crate::refusals::LineRefusal;
use view_outside::{Failed, Source};

/// Reads at most as many bytes as the piece has, puts them behind the others, and answers how many. None means the
/// end. Without memory the bytes that were read are lost.
pub fn read_piece<I: Source>(
    source: &mut I,
    piece: &mut [u8],
    bytes: &mut Vec<u8>,
) -> Result<usize, LineRefusal>
    requires { 0 < length piece.old }
    ensures added { IfOk result
        (λ n.
        AddsFirst n (length piece.old) (I.rest source.old) bytes.old.items bytes.new.items
        (I.rest source.new)) }
    ensures end { IfOk result (λ n. n ≡ 0 → IsAtEnd (I.rest source.new)) }
    ensures read { ReadsAtMost (length piece.old) (I.rest source.old) (I.rest source.new) }
    ensures later { I.faults source.old ≤ I.faults source.new }
    ensures cause { IfErr result
        (OnlyIf ReadFault (Rose (I.faults source.old) (I.faults source.new))) }
{
    let n = match source.read(piece) {
        Ok(count) => count,
        Err(Failed) => return Err(LineRefusal::ReadFault),
    };
    bytes.extend_from_slice(&piece[..n])?;
    Ok(n)
}
