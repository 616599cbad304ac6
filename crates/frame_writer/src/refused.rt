//! Texts whose writer was refused.

ghost use Rattle.std.specs.Prelude.{◌≡◌, take, OnOk, OnErr};

use grid_vertex::NoMemory;

/// Passes the writer's answer on. Where it was refused, the text is cut back to this length.
pub fn undo_if_refused(
    answer: Result<(), NoMemory>,
    length: usize,
    out: &mut Vec<u8>,
) -> Result<(), NoMemory>
    ensures answer { result ≡ answer }
    ensures ok { OnOk result (out.new.items ≡ out.old.items) }
    ensures err { OnErr result (out.new.items ≡ take length out.old.items) }
{
    if answer.is_err() {
        out.truncate(length);
    }
    answer
}
