//! Reasons why two heaps are not compared.

use hprof_engine::ToolFault;
use thiserror::Error;

/// The reason why two heaps were not compared. The older heap is read and checked before anything of the newer one is read.
#[derive(Clone, Copy, Debug, PartialEq, Eq, Error)]
pub enum DiffFault {
    /// The parts of the older heap were refused, or memory ran out while they were read.
    #[error("older dump: {0}")]
    Old(ToolFault),
    /// The parts of the newer heap were refused, or memory ran out while they were read, or the writer failed.
    #[error("newer dump: {0}")]
    New(ToolFault),
}
