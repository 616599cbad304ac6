//! What a fetch of a body gives.

use file_model::FileFault;
use patch_file::Body;
use std::sync::Arc;

/// What a fetch of a body gives.
#[derive(Drop)]
pub enum Fetch {
    /// The body.
    Body(Arc<Body>),
    /// The patch isn't there.
    Lost,
    /// The store failed.
    Fault,
    /// The bytes of the patch break the body rule; the first fault.
    Changed(FileFault),
}
