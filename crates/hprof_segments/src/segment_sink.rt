//! A sink that takes rows as sub-records.

ghost use Rattle.std.specs.Prelude.{◌≡◌, ◌↔◌, IsTrue, length};
ghost use Rattle.hprof_segments.specs.ByteSegments.{IsSub};

use crate::segment_fault::SegmentFault;
use crate::segment_writer::SegmentWriter;
use hprof_devices::Target;
use hprof_merge::RowSink;

/// A sink that takes the bytes of each row as a sub-record, and writes them in segments to a target. Keys are not written.
///
/// The writer goes on from what it holds, and afterwards holds the last segment.
#[derive(Drop)]
pub struct SegmentSink<'a, W: Target> {
    writer: &'a mut SegmentWriter,
    target: &'a mut W,
}

impl<'a, W: Target> SegmentSink<'a, W> {
    ghost use Rattle.hprof_segments.specs.Sink.{sink_state, IsInto};

    /// Returns a sink that takes sub-records into a writer.
    pub fn new(writer: &'a mut SegmentWriter, target: &'a mut W) -> Self
        ensures state { sink_state result ≡ (writer.old, target.old) }
        ensures same { IsInto result writer.entry target.entry }
    {
        SegmentSink { writer, target }
    }
}

/// Returns whether these may be the bytes of a sub-record.
fn is_sub(bytes: &[u8]) -> bool
    ensures { IsTrue result ↔ IsSub bytes.now }
{
    !bytes.is_empty() && bytes.len() <= u32::MAX as usize
}

impl<W: Target> RowSink for SegmentSink<'_, W> {
    ghost use Rattle.std.specs.Prelude.{◌≡◌};
    ghost use Rattle.hprof_devices.specs.declared.health.Health.TheVariants.{Well};
    ghost use Rattle.hprof_segments.specs.Sink.{TakesIntoSink, SinkRefuses};

    ghost steps = { TakesIntoSink W.written };

    ghost refuses = { SinkRefuses W.written W.health };

    ghost well = { λ it. W.health it.target.now ≡ Well };

    type Fault = SegmentFault;

    fn take(&mut self, _key: u64, bytes: &[u8]) -> Result<(), SegmentFault> {
        if !is_sub(bytes) {
            return Err(SegmentFault::NoSubRecord);
        }
        self.writer.take(bytes, self.target)?;
        Ok(())
    }
}
