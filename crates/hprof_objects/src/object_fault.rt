//! Why objects cannot be merged.

use crate::stretch_fault::StretchFault;
use hprof_runs::RunFault;
use std::fmt;
use thiserror::Error;

/// The reason why a merge of objects stopped before the end, with the faults of its sink.
#[derive(Clone, Copy, Debug, PartialEq, Eq, Error)]
#[error_bound(F: fmt::Display)]
pub enum ObjectFault<F> {
    /// Memory ran out.
    #[error("out of memory")]
    OutOfMemory,
    /// Two objects have this identifier and different contents. No lower identifier has two contents.
    #[error("conflict at object {0:x}")]
    TwoContents(u64),
    /// Objects that went to scratch cannot be read back.
    #[error("{0}")]
    Scratch(RunFault),
    /// Objects that stayed in a part cannot be read again.
    #[error("part {part}: {fault}")]
    Part {
        /// The number of the part, from 0.
        part: usize,
        /// The reason.
        fault: StretchFault,
    },
    /// The sink refused an object.
    #[error("{0}")]
    Sink(F),
}
