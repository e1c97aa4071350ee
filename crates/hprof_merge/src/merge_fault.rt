//! Why a merge stops.

use std::fmt;
use thiserror::Error;

/// The reason why a merge stopped before the end, with the faults of its cursors and of its sink.
#[derive(Clone, Copy, Debug, PartialEq, Eq, Error)]
#[error_bound(C: fmt::Display, T: fmt::Display)]
pub enum MergeFault<C, T> {
    /// Memory ran out before the first row.
    #[error("out of memory")]
    OutOfMemory,
    /// Two rows have this key and different bytes. No lower key has two contents.
    #[error("conflict at row {0:x}")]
    TwoContents(u64),
    /// The cursor at this place failed.
    #[error("cursor {0}: {1}")]
    Cursor(usize, C),
    /// The sink refused a row.
    #[error("{0}")]
    Sink(T),
}
