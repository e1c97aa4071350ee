//! Handles as parts that can be opened again.

use crate::handle_at::HandleAt;
use crate::read_at::ReadAt;
use hprof_devices::Device;
use hprof_parts::Parts;

/// Parts in handles, one each.
#[derive(Drop)]
pub struct Handles<'a, H> {
    handles: &'a [H],
}

impl<'a, H> Handles<'a, H> {
    ghost use Rattle.std.specs.Prelude.{◌≡◌};
    ghost use Rattle.hprof_handles.specs.Handles.{handles_of};

    /// Returns the handles as parts, in their order.
    pub fn new(handles: &'a [H]) -> Self
        ensures { handles_of result ≡ handles.now }
    {
        Handles { handles }
    }
}

impl<'a, H: ReadAt> Parts for Handles<'a, H> {
    ghost use Rattle.std.specs.Prelude.{map};

    ghost bytes = { λ it. map H.bytes it.handles.now };

    type Reader = Device<HandleAt<'a, H>>;

    fn count(&self) -> usize {
        self.handles.len()
    }

    fn open(&self, index: usize, at: u64) -> Device<HandleAt<'a, H>> {
        Device::new(HandleAt::new(&self.handles[index], at))
    }
}
