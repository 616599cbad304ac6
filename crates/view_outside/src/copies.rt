//! Bytes that are copied into a buffer.

ghost use Rattle.std.specs.Prelude.{◌≡◌, ◌≤◌, drop, length, min};
ghost use Rattle.view_outside.specs.Files.{AreBytes, ReadsFrom};

/// Copies what stands at this offset into the buffer, and answers how many bytes.
pub fn copy_from(bytes: &[u8], offset: usize, buffer: &mut [u8]) -> usize
    ensures count { result ≡ min (length (drop offset bytes.now)) (length buffer.old) }
    ensures bytes { ReadsFrom bytes.now offset buffer.new result }
    ensures told { AreBytes bytes.now }
{
    let rest = &bytes[offset.min(bytes.len())..];
    let n = rest.len().min(buffer.len());
    buffer[..n].copy_from_slice(&rest[..n]);
    n
}
