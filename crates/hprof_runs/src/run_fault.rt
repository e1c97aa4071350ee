//! Why a run cannot be read back.

use thiserror::Error;

/// The reason why a run cannot be read back.
#[derive(Clone, Copy, Debug, PartialEq, Eq, Error)]
pub enum RunFault {
    /// Memory ran out.
    #[error("out of memory")]
    OutOfMemory,
    /// The scratch failed.
    #[error("scratch failed")]
    Read,
    /// What came back is no run: a row is not whole, or its key is not above the key before.
    #[error("scratch failed")]
    Damaged,
}
