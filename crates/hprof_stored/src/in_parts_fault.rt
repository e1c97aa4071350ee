//! Why the objects of parts cannot be gone through.

use hprof_engine::{Loss, ToolFault};
use hprof_heap::Key;
use hprof_objects::StretchFault;
use hprof_runs::RunFault;
use thiserror::Error;

/// The reason why the objects of parts cannot be gone through.
#[derive(Clone, Copy, Debug, PartialEq, Eq, Error)]
pub enum InPartsFault {
    /// Memory ran out.
    #[error("out of memory")]
    OutOfMemory,
    /// Two objects have this identifier and different contents. No lower identifier has two contents.
    #[error("conflict at object {0:x}")]
    TwoContents(u64),
    /// Objects that went to scratch cannot be read back.
    #[error("{0}")]
    Scratch(RunFault),
    /// Objects that stayed in a part cannot be read again.
    #[error("part {part}: {fault}")]
    Part {
        /// The number of the part, from 0.
        part: usize,
        /// The reason.
        fault: StretchFault,
    },
    /// What came is no object. It never is, if the parts are as they were read and the scratch tells its bytes.
    #[error("objects changed")]
    NoObject,
    /// There are more objects than a `u64` can count: 2^64. Only `count` answers it.
    #[error("too many objects")]
    TooMany,
}

impl From<InPartsFault> for ToolFault {
    ghost use Rattle.std.specs.Prelude.{◌≡◌};
    ghost use Rattle.hprof_stored.specs.StoredMaking.{fault_of_pass};

    ghost from_gives = { λ fault given. given ≡ fault_of_pass fault };

    fn from(fault: InPartsFault) -> ToolFault {
        match fault {
            InPartsFault::OutOfMemory
            | InPartsFault::TooMany
            | InPartsFault::Scratch(RunFault::OutOfMemory)
            | InPartsFault::Part {
                fault: StretchFault::OutOfMemory,
                ..
            } => ToolFault::OutOfMemory,
            InPartsFault::TwoContents(id) => ToolFault::Conflict(Key::Object(id)),
            InPartsFault::Scratch(RunFault::Read | RunFault::Damaged) => {
                ToolFault::Lost(Loss::Scratch)
            }
            InPartsFault::Part {
                part,
                fault: StretchFault::Read,
            } => ToolFault::Lost(Loss::Read(part)),
            InPartsFault::Part {
                part,
                fault: StretchFault::Changed,
            } => ToolFault::Lost(Loss::Changed(part)),
            InPartsFault::NoObject => ToolFault::Lost(Loss::Objects),
        }
    }
}
