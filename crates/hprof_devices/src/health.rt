//! The health of a reader or a writer.

use thiserror::Error;

/// The health of a reader or a writer. A call on a healthy one returns a fault exactly if it leaves the health of the same name.
#[derive(Clone, Copy, Debug, PartialEq, Eq)]
pub enum Health {
    /// No call returned a fault.
    Well,
    /// A call returned an error.
    Failed,
    /// A call took no byte of a piece that was not empty.
    Stuck,
}

/// The reason why a read failed.
#[derive(Clone, Copy, Debug, PartialEq, Eq, Error)]
pub enum ReadFault {
    /// The reader returned an error.
    #[error("read failed")]
    Failed,
}

/// The reason why bytes were not written.
#[derive(Clone, Copy, Debug, PartialEq, Eq, Error)]
pub enum WriteFault {
    /// The writer returned an error.
    #[error("write failed")]
    Failed,
    /// The writer took no byte of a piece that was not empty.
    #[error("write failed")]
    Stuck,
}
