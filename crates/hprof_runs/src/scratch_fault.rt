//! Why rows do not go to scratch.

use hprof_devices::WriteFault;
use thiserror::Error;

/// The reason why rows did not go to scratch.
#[derive(Clone, Copy, Debug, PartialEq, Eq, Error)]
pub enum ScratchFault {
    /// Memory ran out.
    #[error("out of memory")]
    OutOfMemory,
    /// The scratch would have 2^64 bytes or more.
    #[error("scratch failed")]
    Full,
    /// The scratch failed.
    #[error("scratch failed")]
    Write(WriteFault),
}
