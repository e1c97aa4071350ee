//! Writing sub-records that come one after another in segments.

ghost use Rattle.std.specs.Prelude.{◌≡◌, ◌+◌, ◌++◌, ◌<◌, ◌≤◌, ℕ, List, [], length, Option, vec_len, vec_capacity, IfOk, OnOk};
ghost use Rattle.hprof_devices.specs.declared.health.Health.TheVariants.{Well};
ghost use Rattle.hprof_devices.specs.Device.{Writes, LeavesHealth};
ghost use Rattle.hprof_dump.specs.Dump.{most_in_segment};
ghost use Rattle.hprof_items.specs.Head.{record_bytes};
ghost use Rattle.hprof_items.specs.Spelling.{longest_body};
ghost use Rattle.hprof_segments.specs.ByteSegments.{IsSub, segment_records};
ghost use Rattle.hprof_segments.specs.Taking.{HasTaken, EndsTaking, held_record};

use hprof_devices::{Target, WriteFault, push_all};
use hprof_items::tag;
use hprof_writing::write_head;
use std::alloc::{AllocError, Global};

/// The largest number of bytes of a segment with more than one sub-record.
const MOST_IN_SEGMENT: usize = 1_048_576;

/// Writes a segment with this body. If this fails, a prefix of it was written.
fn write_segment<W: Target>(body: &[u8], target: &mut W) -> Result<(), WriteFault>
    requires well { W.health target.old ≡ Well }
    requires short { length body.now ≤ longest_body }
    ensures bytes { Writes (W.written target.old) (W.written target.new) result (record_bytes 0x1c 0 body.now) }
    ensures health { LeavesHealth result (W.health target.new) }
{
    write_head(tag::HEAP_DUMP_SEGMENT, body.len() as u32, target)?;
    push_all(body, target)
}

/// Writes sub-records, which it takes one after another, in segments that are as full as they can be.
///
/// It holds the sub-records of one segment, at most 1 MiB, until the next one has no room there. A sub-record of more than 1 MiB is not
/// held: it is written at once, in a segment of its own. Only `new` allocates. After a fault the writer must not be used again.
#[derive(Drop)]
pub struct SegmentWriter {
    held: Vec<u8>,
    ghost short: { vec_len held ≤ most_in_segment },
    ghost room: { most_in_segment ≤ vec_capacity held },
}

impl SegmentWriter {
    ghost use Rattle.hprof_segments.specs.Writer.{held_bytes};

    /// Returns a writer that holds nothing. Allocates 1 MiB.
    pub fn new(alloc: Global) -> Result<Self, AllocError>
        ensures { IfOk result (λ writer. held_bytes writer ≡ []) }
    {
        let held = Vec::with_capacity(alloc, MOST_IN_SEGMENT)?;
        Ok(SegmentWriter { held })
    }

    /// Holds a sub-record behind those that are held.
    #[inline(always)]
    fn hold(&mut self, spelled: &[u8])
        requires { length (held_bytes self.old) + length spelled.now ≤ most_in_segment }
        ensures { held_bytes self.new ≡ held_bytes self.old ++ spelled.now }
    {
        let Ok(()) = self.held.extend_from_slice(spelled) else {
            unreachable!()
        };
    }

    /// Writes the segment that is held, if one is. If this fails, a prefix of it was written.
    fn write_held<W: Target>(&mut self, target: &mut W) -> Result<(), WriteFault>
        requires { W.health target.old ≡ Well }
        ensures bytes { Writes (W.written target.old) (W.written target.new) result (held_record (held_bytes self.old)) }
        ensures empty { OnOk result (held_bytes self.new ≡ []) }
        ensures health { LeavesHealth result (W.health target.new) }
    {
        if self.held.is_empty() {
            return Ok(());
        }
        write_segment(&self.held, target)?;
        self.held.clear();
        Ok(())
    }

    /// Takes a sub-record that has no room in the segment that is held: that one is written first.
    #[inline(never)]
    fn take_next<W: Target>(&mut self, spelled: &[u8], target: &mut W) -> Result<(), WriteFault>
        requires well { W.health target.old ≡ Well }
        requires sub { IsSub spelled.now }
        requires full { most_in_segment < length (held_bytes self.old) + length spelled.now }
        ensures taken { (start : Option (List ℕ)) (subs : List (List ℕ))
            → HasTaken start (W.written target.old) (held_bytes self.old) subs
            → EndsTaking start (W.written target.new) (held_bytes self.new) subs spelled.now result }
        ensures health { LeavesHealth result (W.health target.new) }
    {
        self.write_held(target)?;
        if spelled.len() > MOST_IN_SEGMENT {
            return write_segment(spelled, target);
        }
        self.hold(spelled);
        Ok(())
    }

    /// Takes the next sub-record, given as its bytes. If it has no room in the segment that is held, that segment is written first. The
    /// bytes are copied once.
    ///
    /// If this fails, a prefix of the segments was written, and the writer must not be used again.
    #[inline(always)]
    pub fn take<W: Target>(&mut self, spelled: &[u8], target: &mut W) -> Result<(), WriteFault>
        requires well { W.health target.old ≡ Well }
        requires sub { IsSub spelled.now }
        ensures taken { (start : Option (List ℕ)) (subs : List (List ℕ))
            → HasTaken start (W.written target.old) (held_bytes self.old) subs
            → EndsTaking start (W.written target.new) (held_bytes self.new) subs spelled.now result }
        ensures health { LeavesHealth result (W.health target.new) }
    {
        if self.held.len() + spelled.len() > MOST_IN_SEGMENT {
            return self.take_next(spelled, target);
        }
        self.hold(spelled);
        Ok(())
    }

    /// Writes the segment that is held, if one is. So the segments of all sub-records that were taken are written, and nothing is held.
    ///
    /// If this fails, a prefix of the segments was written, and the writer must not be used again.
    pub fn finish<W: Target>(&mut self, target: &mut W) -> Result<(), WriteFault>
        requires { W.health target.old ≡ Well }
        ensures written { (start : Option (List ℕ)) (subs : List (List ℕ))
            → HasTaken start (W.written target.old) (held_bytes self.old) subs
            → Writes start (W.written target.new) result (segment_records subs) }
        ensures empty { OnOk result (held_bytes self.new ≡ []) }
        ensures health { LeavesHealth result (W.health target.new) }
    {
        self.write_held(target)
    }
}
