//! The answers of calls that the outside didn't serve.

/// The call failed. The count of faults of whatever was asked says whether the outside is to blame.
#[derive(Clone, Copy, Debug, PartialEq, Eq)]
pub struct Failed;

/// The sink failed before all was written.
#[derive(Clone, Copy, Debug, PartialEq, Eq)]
pub struct WriteFault;
