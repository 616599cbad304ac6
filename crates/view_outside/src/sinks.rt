//! Bytes that are written from first to last.

ghost use Rattle.std.specs.Prelude.{◌≡◌, ℕ, ◌<◌, ◌≤◌, List, length, take, Option, IfOk, OnErr, ⊤};
ghost use Rattle.view_outside.specs.Faults.{HasCause};
ghost use Rattle.view_outside.specs.Streams.{appended};

use crate::failed::Failed;

mod memory;
mod writer;
mod writing;

pub use memory::MemorySink;
pub use writer::StdSink;
pub use writing::write_all;

/// Takes bytes in their order.
pub trait Sink {
    /// The bytes written so far, where the sink tells them.
    ghost written: { Self → Option (List ℕ) };

    /// How often the sink has failed. It never falls.
    ghost faults: { Self → ℕ };

    /// Takes at least the first byte of the piece, and answers how many of its first bytes it took.
    fn write(&mut self, piece: &[u8]) -> Result<usize, Failed>
        requires { 0 < length piece.now }
        ensures some { IfOk result (λ n. 1 ≤ n) }
        ensures bound { IfOk result (λ n. n ≤ length piece.now) }
        ensures appends { IfOk result
            (λ n. written self.new ≡ appended (written self.old) (take n piece.now)) }
        ensures kept { OnErr result (written self.new ≡ written self.old) }
        ensures cause { HasCause (faults self.old) (faults self.new) ⊤ result };
}
