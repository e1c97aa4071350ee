//! Reasons why a row is not taken as a sub-record.

use hprof_devices::WriteFault;
use thiserror::Error;

/// The reason why a row was not taken.
#[derive(Clone, Copy, Debug, PartialEq, Eq, Error)]
pub enum SegmentFault {
    /// The row is no sub-record: it has no bytes, or more than 4,294,967,295. The writer and the target are unchanged.
    #[error("no sub-record")]
    NoSubRecord,
    /// The target failed or took no more bytes. A prefix of the segments was written.
    #[error("{0}")]
    Write(WriteFault),
}

impl From<WriteFault> for SegmentFault {
    ghost use Rattle.std.specs.Prelude.{◌≡◌};
    ghost use Rattle.hprof_segments.specs.declared.segment_fault.SegmentFault.TheVariants.{Write};

    ghost from_gives = { λ fault segment. segment ≡ Write fault };

    fn from(fault: WriteFault) -> SegmentFault {
        SegmentFault::Write(fault)
    }
}
