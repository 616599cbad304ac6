//! What one turn of a tier did, and what comes to it.

use file_model::FileFault;

/// How many patches come to a tier at once, at most.
pub const MOST_WIDTH: u32 = 8;

/// What one turn of a tier did. All but `Kept` and `Idle` are kept in the tier's journal.
#[derive(Clone, Copy, Debug, PartialEq, Eq)]
pub enum Turn {
    /// The patch comes from now on, as the last of those that come and without a body.
    Reserve(u32),
    /// The patch is not held any more.
    Evict(u32),
    /// The patch is still held, since it was in use; the patch and how many uses were found.
    Kept(u32, u32),
    /// The body of the patch arrived.
    Got(u32),
    /// The tier below does not hold the patch, which comes no more.
    Lost(u32),
    /// The store failed at the patch, which comes no more and is put aside.
    Fault(u32),
    /// The file has changed under the patch, which comes no more and is put aside; the patch and the
    /// first fault of its body.
    Changed(u32, FileFault),
    /// The patch is held from now on.
    Commit(u32),
    /// There was nothing to do.
    Idle,
}

/// Why a patch that was to come doesn't.
#[derive(Clone, Copy, Debug, PartialEq, Eq)]
pub enum Abort {
    /// The tier below does not hold it.
    Lost,
    /// The store failed.
    Fault,
    /// The file has changed; the first fault of the patch's body.
    Changed(FileFault),
}

/// A patch that comes to a tier, and whether its body has arrived.
#[derive(Clone, Copy, Debug, PartialEq, Eq)]
pub struct Coming {
    pub patch: u32,
    pub has_body: bool,
}
