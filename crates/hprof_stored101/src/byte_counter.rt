//! A sink that adds up the bytes of rows.

ghost use Rattle.std.specs.Prelude.{⊤};

use hprof_merge::RowSink;
use hprof_segments::SegmentFault;

/// The number of bytes of the rows that it was given, added to those counted before. A number above `u64::MAX` is counted as `u64::MAX`.
#[derive(Drop)]
pub(crate) struct ByteCounter {
    pub(crate) count: u64,
}

impl RowSink for ByteCounter {
    ghost use Rattle.hprof_stored101.specs.ByteCounter.{Counts};

    ghost steps = { Counts };

    ghost refuses = { λ old key bytes fault new. ⊥ };

    ghost well = { λ it. ⊤ };

    type Fault = SegmentFault;

    fn take(&mut self, _key: u64, bytes: &[u8]) -> Result<(), SegmentFault> {
        self.count = self.count.saturating_add(bytes.len() as u64);
        Ok(())
    }
}
