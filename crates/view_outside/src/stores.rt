//! Files that are found by name and read at any offset.

ghost use Rattle.std.specs.Prelude.{◌≡◌, ℕ, ◌<◌, ◌≤◌, List, length, Option, IfOk, MatchResult};
ghost use Rattle.view_outside.specs.Faults.{HasCause};
ghost use Rattle.view_outside.specs.Files.{Named, HasFile, HasName, Finds, ReadsFile, TellsBytes};
ghost use Rattle.view_outside.specs.Taken.{taken_after};

use crate::failed::Failed;

mod ahead;
mod folder;
mod memory;

pub use ahead::ReadAhead;
pub use folder::FolderStore;
pub use memory::{MemoryStore, NamedFile};

/// Files with a number, a name and bytes, none of which changes.
pub trait Store {
    /// The files by their numbers, where the store tells them.
    ghost files: { Self → Option (List Named) };

    /// How often the store has failed. It never falls.
    ghost faults: { Self → ℕ };

    /// How many bytes the store has handed over.
    ghost taken: { Self → ℕ };

    /// The number of the first file of this name.
    fn find(&mut self, name: &str) -> Result<u32, Failed>
        ensures there { IfOk result (λ file. HasFile (files self.old) file) }
        ensures found { IfOk result (λ file. Finds (files self.old) name.now file) }
        ensures cause { HasCause (faults self.old) (faults self.new)
            (HasName (files self.old) name.now) result }
        ensures kept { files self.new ≡ files self.old }
        ensures taken { taken self.new ≡ taken self.old };

    /// Reads bytes of a file from this offset into the buffer, and answers how many.
    /// None into a buffer with room means that the file ends there. A read into one without room may ask nobody, and tells
    /// nothing of the file.
    fn read_at(&mut self, file: u32, offset: u64, buffer: &mut [u8]) -> Result<usize, Failed>
        ensures bound { IfOk result (λ n. n ≤ length buffer.new) }
        ensures bytes { IfOk result (λ n. ReadsFile (files self.old) file offset buffer.new n) }
        ensures told { IfOk result (λ _. 0 < length buffer.new → TellsBytes (files self.old) file) }
        ensures cause { HasCause (faults self.old) (faults self.new) (HasFile (files self.old) file)
            result }
        ensures kept { files self.new ≡ files self.old }
        ensures taken { MatchResult result
            (λ n. taken self.new ≡ taken_after (taken self.old) n)
            (λ _. taken self.new ≡ taken self.old) };
}
