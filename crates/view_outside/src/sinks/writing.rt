//! Writing bytes to a sink, all or a beginning.

ghost use Rattle.std.specs.Prelude.{◌≡◌, ◌<◌, ◌≤◌, length, OnErr};
ghost use Rattle.view_outside.specs.Faults.{Rose};
ghost use Rattle.view_outside.specs.Written.{Wrote};

use crate::failed::WriteFault;
use crate::sinks::Sink;

/// Writes all of these bytes, or a proper beginning of them where the sink fails.
pub fn write_all<O: Sink>(bytes: &[u8], sink: &mut O) -> Result<(), WriteFault>
    ensures text { Wrote result (O.written sink.old) (O.written sink.new) bytes.now }
    ensures later { O.faults sink.old ≤ O.faults sink.new }
    ensures cause { OnErr result (Rose (O.faults sink.old) (O.faults sink.new)) }
{
    let mut written = 0;
    while written < bytes.len() {
        match sink.write(&bytes[written..]) {
            Ok(n) => written += n,
            Err(_) => return Err(WriteFault),
        }
    }
    Ok(())
}
