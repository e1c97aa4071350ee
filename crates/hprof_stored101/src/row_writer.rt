//! A sink that writes the bytes of rows.

ghost use Rattle.std.specs.Prelude.{◌≡◌};

use hprof_devices::{Target, push_all};
use hprof_merge::RowSink;
use hprof_segments::SegmentFault;

/// A sink that writes the bytes of each row to a target, and no keys.
#[derive(Drop)]
pub(crate) struct RowWriter<'a, W: Target> {
    target: &'a mut W,
}

impl<'a, W: Target> RowWriter<'a, W> {
    /// Returns a sink that writes to a target.
    pub(crate) fn new(target: &'a mut W) -> Self
        ensures target { result.target.now ≡ target.old }
        ensures same { result.target.ghost_name ≡ target.entry.ghost_name }
    {
        RowWriter { target }
    }
}

impl<W: Target> RowSink for RowWriter<'_, W> {
    ghost use Rattle.std.specs.Prelude.{◌≡◌};
    ghost use Rattle.hprof_devices.specs.declared.health.Health.TheVariants.{Well};
    ghost use Rattle.hprof_stored101.specs.RowWriter.{StopsAtRow, WritesRow};

    ghost steps = { WritesRow W.written };

    ghost refuses = { StopsAtRow W.written W.health };

    ghost well = { λ it. W.health it.target.now ≡ Well };

    type Fault = SegmentFault;

    fn take(&mut self, _key: u64, bytes: &[u8]) -> Result<(), SegmentFault> {
        push_all(bytes, self.target)?;
        Ok(())
    }
}
