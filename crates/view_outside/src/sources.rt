//! Bytes that are read from first to last.

ghost use Rattle.std.specs.Prelude.{◌≡◌, ℕ, ◌<◌, ◌≤◌, List, length, Option, IfOk, OnErr, ⊤};
ghost use Rattle.view_outside.specs.Faults.{HasCause};
ghost use Rattle.view_outside.specs.Streams.{ReadsRest};

use crate::failed::Failed;

mod memory;
mod reader;

pub use memory::MemorySource;
pub use reader::StdSource;

/// Bytes that are read once, in their order.
pub trait Source {
    /// The bytes still to be read, where the source tells them.
    ghost rest: { Self → Option (List ℕ) };

    /// How often the source has failed. It never falls.
    ghost faults: { Self → ℕ };

    /// Reads the next bytes into a buffer with room, and answers how many. None means the end.
    fn read(&mut self, buffer: &mut [u8]) -> Result<usize, Failed>
        requires { 0 < length buffer.old }
        ensures bound { IfOk result (λ n. n ≤ length buffer.new) }
        ensures bytes { IfOk result (λ n. ReadsRest (rest self.old) buffer.new n (rest self.new)) }
        ensures unread { OnErr result (rest self.new ≡ rest self.old) }
        ensures cause { HasCause (faults self.old) (faults self.new) ⊤ result };
}
