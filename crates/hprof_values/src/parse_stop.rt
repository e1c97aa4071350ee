//! Reasons why an item is not read to its end.

use crate::reason::Reason;
use thiserror::Error;

/// The reason why an item is not read to its end.
#[derive(Clone, Copy, Debug, PartialEq, Eq, Error)]
pub enum ParseStop {
    /// The item is right so far; more bytes are needed.
    #[error("incomplete")]
    Short,
    /// The item is longer than the longest accepted item.
    #[error("item too long")]
    TooLong,
    /// The item is wrong, whatever follows.
    #[error("malformed: {0:?}")]
    Fault(Reason),
}
