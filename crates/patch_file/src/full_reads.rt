//! Reading as much of a file as a buffer takes.

ghost use Rattle.std.specs.Prelude.{◌≡◌, ◌+◌, ◌^◌, ◌<◌, ◌≤◌, length, IfOk, OnErr, IfSome};
ghost use Rattle.view_outside.specs.Faults.{Rose};
ghost use Rattle.view_outside.specs.Files.{HasFile, file_bytes};
ghost use Rattle.view_outside.specs.Taken.{taken_after, RisesBelow};
ghost use Rattle.patch_file.specs.Taking.{Fills};

use view_outside::{Failed, Store};

/// Reads the file from this offset until the buffer is full or the file ends, and answers how many
/// bytes stand in the buffer then.
pub fn read_full<S: Store>(
    store: &mut S,
    file: u32,
    offset: u64,
    buffer: &mut [u8],
) -> Result<usize, Failed>
    requires file { HasFile (S.files store.old) file }
    requires room { offset + length buffer.old < 2 ^ 64 }
    ensures bound { IfOk result (λ n. n ≤ length buffer.new) }
    ensures bytes { IfOk result (λ n.
        IfSome (file_bytes (S.files store.old) file) (λ bytes. Fills bytes offset buffer.new n)) }
    ensures kept { S.files store.new ≡ S.files store.old }
    ensures later { S.faults store.old ≤ S.faults store.new }
    ensures cause { OnErr result (Rose (S.faults store.old) (S.faults store.new)) }
    ensures taken { IfOk result (λ n. S.taken store.new ≡ taken_after (S.taken store.old) n) }
    ensures cut { OnErr result
        (RisesBelow (S.taken store.old) (S.taken store.new) (length buffer.old)) }
{
    let mut filled = 0;
    while filled < buffer.len() {
        let n = store.read_at(file, offset + filled as u64, &mut buffer[filled..])?;
        if n == 0 {
            break;
        }
        filled += n;
    }
    Ok(filled)
}
