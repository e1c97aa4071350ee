//! Reasons why a part is refused.

use crate::sink::SinkFault;
use hprof_items::Reason;
use thiserror::Error;

/// The reason why a part was refused. An offset is the number of bytes before the faulty item.
#[derive(Clone, Copy, Debug, PartialEq, Eq, Error)]
pub enum PartFault {
    /// The item at this offset is incomplete or invalid.
    #[error("malformed at {at}: {reason:?}")]
    Malformed {
        /// The offset of the item.
        at: u64,
        /// The reason.
        reason: Reason,
    },
    /// The item at this offset is longer than the longest accepted item.
    #[error("item too long at {at}")]
    ItemTooLong {
        /// The offset of the item.
        at: u64,
    },
    /// Memory ran out in the reader.
    #[error("out of memory")]
    OutOfMemory,
    /// The sink refused the header or a fact.
    #[error("{0}")]
    Sink(SinkFault),
    /// The part was refused before.
    #[error("reader failed")]
    Failed,
    /// The source failed.
    #[error("read failed")]
    Read,
    /// The part needs more reads than the limit.
    #[error("too many reads")]
    ReadsExceeded,
    /// The part has more bytes than the limit.
    #[error("too many bytes")]
    BytesExceeded,
}
