//! Reasons why a 1.0.1 dump is not written.

use hprof_devices::WriteFault;
use thiserror::Error;

/// The reason why the 1.0.1 dump of a heap was not written to its end.
#[derive(Clone, Copy, Debug, PartialEq, Eq, Error)]
pub enum DumpFault {
    /// The sub-records have more bytes than the limit. Nothing was written.
    #[error("dump too long")]
    TooLong,
    /// The target failed or took no more bytes.
    #[error("{0}")]
    Write(WriteFault),
}

impl From<WriteFault> for DumpFault {
    ghost use Rattle.std.specs.Prelude.{◌≡◌};
    ghost use Rattle.hprof_dump.specs.declared.fault.DumpFault.TheVariants.{Write};

    ghost from_gives = { λ fault dump. dump ≡ Write fault };

    fn from(fault: WriteFault) -> DumpFault {
        DumpFault::Write(fault)
    }
}
