//! Slices as parts.

use crate::parts::Parts;
use hprof_devices::Device;

/// Parts in memory, one slice each. They tell their bytes.
#[derive(Clone, Copy)]
pub struct Slices<'a> {
    slices: &'a [&'a [u8]],
}

impl<'a> Slices<'a> {
    ghost use Rattle.std.specs.Prelude.{◌≡◌, Some, map};
    ghost use Rattle.hprof_parts.specs.Slices.{bytes_of_slices};

    /// Returns the slices as parts, in their order.
    pub fn new(slices: &'a [&'a [u8]]) -> Self
        ensures { bytes_of_slices result ≡ map (λ slice. Some slice.now) slices.now }
    {
        Slices { slices }
    }
}

impl<'a> Parts for Slices<'a> {
    ghost use Rattle.hprof_parts.specs.Slices.{bytes_of_slices};

    ghost bytes = { bytes_of_slices };

    type Reader = Device<&'a [u8]>;

    fn count(&self) -> usize {
        self.slices.len()
    }

    fn open(&self, index: usize, at: u64) -> Device<&'a [u8]> {
        let slice = self.slices[index];
        let at = at.min(slice.len() as u64) as usize;
        Device::new(&slice[at..])
    }
}
