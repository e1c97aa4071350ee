//! Targets with a buffer.

ghost use Rattle.std.specs.Prelude.{IfErr, OnOk};
ghost use Rattle.std.specs.Io.KnownBytes.{Keeps};
ghost use Rattle.hprof_devices.specs.Device.{LeavesHealth};

use crate::health::WriteFault;
use crate::target::Target;

/// A target that may hold bytes back until it is flushed.
pub trait Flush: Target {
    ghost use Rattle.std.specs.Prelude.{◌≡◌};
    ghost use Rattle.hprof_devices.specs.declared.health.Health.TheVariants.{Well};
    ghost use Rattle.hprof_devices.specs.declared.health.WriteFault.TheVariants.{Failed};

    // It holds no byte back.
    ghost flushed: { Self → Type 0 };

    /// Passes on all bytes that it holds back. Does not change which bytes were written.
    fn flush(&mut self) -> Result<(), WriteFault>
        requires { Self.health self.old ≡ Well }
        ensures bytes { Keeps (Self.written self.old) (Self.written self.new) }
        ensures flushed { OnOk result (flushed self.new) }
        ensures fault { IfErr result (λ fault. fault ≡ Failed) }
        ensures health { LeavesHealth result (Self.health self.new) };
}
