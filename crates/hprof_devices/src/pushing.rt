//! Pushing a whole slice to a target.

ghost use Rattle.std.specs.Prelude.{◌≡◌};
ghost use Rattle.hprof_devices.specs.declared.health.Health.TheVariants.{Well};
ghost use Rattle.hprof_devices.specs.Device.{Writes, LeavesHealth};

use crate::health::WriteFault;
use crate::target::Target;

/// Pushes all bytes. Those that one push did not take are pushed again. If this fails, a prefix of them was written.
pub fn push_all<W: Target>(bytes: &[u8], target: &mut W) -> Result<(), WriteFault>
    requires { W.health target.old ≡ Well }
    ensures bytes { Writes (W.written target.old) (W.written target.new) result bytes.now }
    ensures health { LeavesHealth result (W.health target.new) }
{
    let mut rest = bytes;
    while !rest.is_empty() {
        let count = target.push(rest)?;
        (_, rest) = rest.split_at(count);
    }
    Ok(())
}
