//! How a command ended.

use crate::faults::ScriptFault;
use file_model::FileFault;
use mesh_model::Refusal;

/// How a command ended. `docs/TEXTS.md` has the text and the code of each.
#[derive(Clone, Copy, Debug, PartialEq, Eq)]
pub enum Status {
    /// All was written.
    Ok,
    /// The words are no command.
    Usage,
    /// The file isn't accepted.
    Refused(Refusal),
    /// The store or the script's source failed, or there is no file of the name.
    ReadFault,
    /// The sink failed; a proper prefix of the text was written.
    WriteFault,
    /// The script isn't valid.
    Script(ScriptFault),
    /// The first budget doesn't hold the base.
    Budget { need: u64, given: u64 },
    /// There was no memory.
    Memory,
    /// The file changed between its check and a load: the patch, and the fault of its body.
    Changed(u32, FileFault),
    /// The file doesn't fit the version that it was to be written in: the least patch whose points spread too
    /// wide.
    Wide(u32),
}
