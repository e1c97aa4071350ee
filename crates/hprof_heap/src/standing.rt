//! The standing of a gatherer, and the reasons why it has no heap.

use hprof_rows::Key;
use thiserror::Error;

/// Whether the parts so far make a heap.
#[derive(Clone, Copy, Debug, PartialEq, Eq)]
pub enum Standing {
    /// No part was begun.
    Empty,
    /// The facts so far agree, and all parts have one identifier size.
    Clean,
    /// Parts have two identifier sizes, or a key came with two contents.
    InConflict,
    /// A call returned a fault.
    Failed,
}

/// The reason why a gatherer has no heap.
#[derive(Clone, Copy, Debug, PartialEq, Eq, Error)]
pub enum Refusal {
    /// No part was begun.
    #[error("no parts")]
    NoParts,
    /// Parts have two identifier sizes.
    #[error("identifier sizes differ")]
    IdSizes,
    /// The least key that came with two contents.
    #[error("conflict at {0}")]
    Conflict(Key),
    /// A call returned a fault.
    #[error("gatherer failed")]
    Failed,
}
