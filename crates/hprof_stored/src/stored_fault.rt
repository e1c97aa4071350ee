//! Reasons why parts are refused.

use hprof_engine::{Loss, ToolFault};
use hprof_heap::Key;
use hprof_runs::ScratchFault;
use hprof_stream::PartFault;
use thiserror::Error;

/// The reason why parts have no heap, or why reading them stopped.
#[derive(Clone, Copy, Debug, PartialEq, Eq, Error)]
pub enum StoredFault {
    /// A part was refused.
    #[error("part {index}: {fault}")]
    Part {
        /// The index of the part, from 0.
        index: usize,
        /// Its fault.
        fault: PartFault,
    },
    /// There are no parts.
    #[error("no parts")]
    NoParts,
    /// Two parts have different sizes of identifiers.
    #[error("identifier sizes differ")]
    IdSizes,
    /// Two facts that are no objects have one key and different contents. This is the least such key.
    #[error("conflict at {0}")]
    Conflict(Key),
    /// The scratch took no more objects. `OutOfMemory`: memory ran out before any part was read.
    #[error("{0}")]
    Scratch(ScratchFault),
}

impl From<StoredFault> for ToolFault {
    ghost use Rattle.std.specs.Prelude.{◌≡◌};
    ghost use Rattle.hprof_stored.specs.StoredMaking.{fault_of_reading};

    ghost from_gives = { λ fault given. given ≡ fault_of_reading fault };

    fn from(fault: StoredFault) -> ToolFault {
        match fault {
            StoredFault::Part { index, fault } => ToolFault::Part { index, fault },
            StoredFault::NoParts => ToolFault::NoParts,
            StoredFault::IdSizes => ToolFault::IdSizes,
            StoredFault::Conflict(key) => ToolFault::Conflict(key),
            StoredFault::Scratch(ScratchFault::OutOfMemory) => ToolFault::OutOfMemory,
            StoredFault::Scratch(ScratchFault::Full | ScratchFault::Write(_)) => {
                ToolFault::Lost(Loss::Scratch)
            }
        }
    }
}
