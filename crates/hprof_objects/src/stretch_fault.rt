//! Why the objects of a stretch cannot be read again.

ghost use Rattle.std.specs.Prelude.{◌≡◌};

use hprof_stream::PartFault;
use thiserror::Error;

/// The reason why the objects of a stretch cannot be read again.
#[derive(Clone, Copy, Debug, PartialEq, Eq, Error)]
pub enum StretchFault {
    /// Memory ran out.
    #[error("out of memory")]
    OutOfMemory,
    /// The source of the part failed, or more reads are needed than the limit.
    #[error("read failed")]
    Read,
    /// The part has changed: it ended or was refused before all objects came, or an object is not above the one before.
    #[error("changed")]
    Changed,
}

impl StretchFault {
    ghost use Rattle.hprof_objects.specs.StretchFault.{stretch_fault};

    /// Returns the reason why a part that was read before is refused now.
    pub(crate) fn of(fault: PartFault) -> StretchFault
        ensures { result ≡ stretch_fault fault }
    {
        match fault {
            PartFault::Malformed { .. }
            | PartFault::ItemTooLong { .. }
            | PartFault::BytesExceeded => StretchFault::Changed,
            PartFault::OutOfMemory | PartFault::Sink(_) => StretchFault::OutOfMemory,
            PartFault::Failed | PartFault::Read | PartFault::ReadsExceeded => StretchFault::Read,
        }
    }
}
