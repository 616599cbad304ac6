//! What a try and an eviction are answered.

ghost use Rattle.std.specs.Prelude.{◌≡◌};
ghost use Rattle.file_model.specs.Tries.{is_odd};

use file_model::is_granted;

/// The answer to a try.
#[derive(Clone, Copy, Debug, PartialEq, Eq)]
pub struct Seen {
    /// The epoch of the patch at the try.
    pub epoch: u32,
}

impl Seen {
    /// Whether the patch was there, so that the try holds a lock.
    pub fn is_granted(self) -> bool
        ensures { result ≡ is_odd self.epoch }
    {
        is_granted(self.epoch)
    }
}

/// The answer to an eviction.
#[derive(Clone, Copy, Debug, PartialEq, Eq)]
pub enum Evict {
    /// There was no use, and the patch has left.
    Gone,
    /// There were this many uses, at least one, and the patch stays.
    Kept(u32),
}
