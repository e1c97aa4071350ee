//! Readers of parts.

ghost use Rattle.std.specs.Prelude.{◌≡◌, All, IfOk};
ghost use Rattle.hprof_devices.specs.declared.health.Health.TheVariants.{Well};
ghost use Rattle.hprof_devices.specs.Device.{health_of};

use hprof_devices::Device;
use std::alloc::{AllocError, Global};

/// Returns devices that read the parts.
pub(crate) fn readers_of<'a>(
    alloc: Global,
    parts: &[&'a [u8]],
) -> Result<Vec<Device<&'a [u8]>>, AllocError>
    ensures { IfOk result (λ readers. All (λ reader. health_of reader ≡ Well) readers.items) }
{
    let mut readers = Vec::new(alloc);
    for part in parts {
        readers.push(Device::new(*part))?;
    }
    Ok(readers)
}
