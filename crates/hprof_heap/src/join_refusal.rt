//! Reasons why two heaps are not joined.

use hprof_rows::Key;
use thiserror::Error;

/// The reason why a heap is not joined with another.
#[derive(Clone, Copy, Debug, PartialEq, Eq, Error)]
pub enum JoinRefusal {
    /// They have two identifier sizes. The heap is unchanged.
    #[error("identifier sizes differ")]
    IdSizes,
    /// The least key whose facts differ. The heap is unchanged.
    #[error("conflict at {0}")]
    Conflict(Key),
    /// Memory ran out. The heap has its own facts, some of the other's, and its own time. The same join can be made again.
    #[error("out of memory")]
    OutOfMemory,
}
