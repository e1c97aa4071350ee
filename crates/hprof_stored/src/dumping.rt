//! Writing the dump of a heap whose objects are stored.

ghost use Rattle.std.specs.Prelude.{◌≡◌, ◌∷◌, ◌++◌, [], ℕ, List, Option, IfErr, OnOk};
ghost use Rattle.hprof_devices.specs.declared.health.Health.TheVariants.{Well};
ghost use Rattle.hprof_devices.specs.Device.{LeavesHealth, Writes};
ghost use Rattle.hprof_items.specs.Head.{head_bytes};
ghost use Rattle.hprof_items.specs.SubRecord.{dump_bytes};
ghost use Rattle.hprof_rows.specs.SubRow.{sub_fact, IsWritable};
ghost use Rattle.hprof_heap.specs.Heap.{heap_of};
ghost use Rattle.hprof_merge.specs.Rows.{ByteRow};
ghost use Rattle.hprof_merge.specs.Union.{IsUnion};
ghost use Rattle.hprof_objects.specs.MergedObjects.{TellsChange};
ghost use Rattle.hprof_objects.specs.PartsRead.{PartRead};
ghost use Rattle.hprof_objects.specs.StoredObjects.{AreToldAgain, objects_of};
ghost use Rattle.hprof_segments.specs.ByteSegments.{segment_records};
ghost use Rattle.hprof_segments.specs.Taking.{HasTaken};
ghost use Rattle.hprof_segments.specs.Writer.{held_bytes};
ghost use Rattle.hprof_stored.specs.Dumping.{AreSubRecords, IsOfDevices, IsOfTarget, LeavesTarget, TakesSubs, WritesOrStops};
ghost use Rattle.hprof_stored.specs.Dumping.{bytes_of, dump_with, front_bytes, subs_of};

use crate::sub_buffer::SubBuffer;
use hprof_devices::{Source, Target, WriteFault};
use hprof_dump::write_records;
use hprof_heap::Heap;
use hprof_items::{Header, Version, tag};
use hprof_objects::{ObjectFault, StoredObjects};
use hprof_parts::Parts;
use hprof_rows::SubRow;
use hprof_runs::Scratch;
use hprof_segments::{SegmentFault, SegmentSink, SegmentWriter};
use hprof_stream::Limits;
use hprof_values::IdSize;
use hprof_writing::{write_head, write_header};
use std::alloc::Global;

/// Takes a sub-record. The buffer holds its bytes meanwhile.
fn take_sub<W: Target>(
    row: SubRow<'_>,
    ids: IdSize,
    buffer: &mut SubBuffer,
    writer: &mut SegmentWriter,
    target: &mut W,
) -> Result<(), ObjectFault<SegmentFault>>
    requires buffer { buffer.old.health ≡ Well }
    requires target { W.health target.old ≡ Well }
    requires writable { IsWritable ids row }
    ensures taken { (start : Option (List ℕ)) (subs : List (List ℕ)) → HasTaken start (W.written target.old) (held_bytes writer.old) subs
        → TakesSubs start (W.written target.new) (held_bytes writer.new) (subs ++ dump_bytes ids (sub_fact ids row.entry) ∷ []) result }
    ensures stops { IfErr result IsOfDevices }
    ensures target { IfErr result IsOfTarget }
    ensures buffer { OnOk result (buffer.new.health ≡ Well) }
    ensures health { LeavesTarget result (W.health target.new) }
{
    let len = row.len(ids);
    if buffer.begin(len as usize).is_err() {
        return Err(ObjectFault::OutOfMemory);
    }
    if row.write(ids, buffer).is_err() {
        return Err(ObjectFault::OutOfMemory);
    }
    match writer.take(&buffer.bytes, target) {
        Ok(()) => Ok(()),
        Err(fault) => Err(ObjectFault::Sink(SegmentFault::Write(fault))),
    }
}

/// Takes the sub-records of a heap.
fn take_subs<W: Target>(
    alloc: Global,
    heap: &Heap,
    writer: &mut SegmentWriter,
    target: &mut W,
) -> Result<(), ObjectFault<SegmentFault>>
    requires target { W.health target.old ≡ Well }
    requires empty { held_bytes writer.old ≡ [] }
    ensures taken { TakesSubs (W.written target.old) (W.written target.new) (held_bytes writer.new) (subs_of (heap_of heap.now)) result }
    ensures stops { IfErr result IsOfDevices }
    ensures target { IfErr result IsOfTarget }
    ensures health { LeavesTarget result (W.health target.new) }
{
    let mut buffer = SubBuffer::new(alloc);
    let mut rows = heap.sub_rows();
    let ids = rows.ids();
    while let Some(row) = rows.next() {
        take_sub(row, ids, &mut buffer, writer, target)?;
    }
    Ok(())
}

/// Takes all objects as sub-records.
fn take_objects<S: Scratch + Drop, R: Source + Drop, P: Parts<Reader = R>, W: Target>(
    alloc: Global,
    objects: &StoredObjects<S>,
    parts: &P,
    limits: Limits,
    writer: &mut SegmentWriter,
    target: &mut W,
) -> Result<(), ObjectFault<SegmentFault>>
    requires { W.health target.old ≡ Well }
    ensures taken { (reads : List PartRead) (rows : List ByteRow)
        → AreToldAgain S.written S.health limits (P.bytes parts.now) reads objects.now
        → IsUnion (objects_of reads) rows → (start : Option (List ℕ)) (subs : List (List ℕ))
        → HasTaken start (W.written target.old) (held_bytes writer.old) subs
        → TakesSubs start (W.written target.new) (held_bytes writer.new) (subs ++ bytes_of rows) result }
    ensures stops { IfErr result (λ stop. (reads : List PartRead) (rows : List ByteRow)
        → AreToldAgain S.written S.health limits (P.bytes parts.now) reads objects.now → IsUnion (objects_of reads) rows
        → AreSubRecords rows → IsOfDevices stop) }
    ensures again { IfErr result (TellsChange S.written S.health limits (P.bytes parts.now) objects.now) }
    ensures health { LeavesTarget result (W.health target.new) }
{
    let mut sink = SegmentSink::new(writer, target);
    objects.merge(alloc, parts, limits, &mut sink)
}

/// Writes what stands before the sub-records: the header of a version, and the facts that have records. If this fails, a prefix was
/// written.
pub fn write_front<W: Target>(
    version: Version,
    heap: &Heap,
    target: &mut W,
) -> Result<(), WriteFault>
    requires { W.health target.old ≡ Well }
    ensures bytes { Writes (W.written target.old) (W.written target.new) result (front_bytes version (heap_of heap.now)) }
    ensures health { LeavesHealth result (W.health target.new) }
{
    let header = Header {
        version,
        ids: heap.ids(),
        millis: heap.millis(),
    };
    write_header(&header, target)?;
    write_records(heap, target)
}

/// Writes the segment that is held, and the end of a dump. If this fails, a prefix was written.
fn write_end<W: Target>(writer: &mut SegmentWriter, target: &mut W) -> Result<(), WriteFault>
    requires { W.health target.old ≡ Well }
    ensures bytes { (start : Option (List ℕ)) (subs : List (List ℕ)) → HasTaken start (W.written target.old) (held_bytes writer.old) subs
        → Writes start (W.written target.new) result (segment_records subs ++ head_bytes 0x2c 0 0) }
    ensures health { LeavesHealth result (W.health target.new) }
{
    writer.finish(target)?;
    write_head(tag::HEAP_DUMP_END, 0, target)
}

/// Writes the dump of a heap with stored objects: the header of version 1.0.2, the facts that have records, and then in segments the
/// sub-records of the heap, and behind them the objects. The parts are those that were read, and the limits those of the first reading.
///
/// The writer holds nothing before. Beside what `merge` of the objects allocates, there is a buffer for one sub-record of the heap.
///
/// # Errors
///
/// A prefix of the dump was written. The writer must not be used again.
///
/// - `Sink`: the target failed or took no more bytes; or an object is no sub-record.
/// - The others are those of `merge`.
pub fn write_stored_dump<S: Scratch + Drop, R: Source + Drop, P: Parts<Reader = R>, W: Target>(
    alloc: Global,
    heap: &Heap,
    objects: &StoredObjects<S>,
    parts: &P,
    limits: Limits,
    writer: &mut SegmentWriter,
    target: &mut W,
) -> Result<(), ObjectFault<SegmentFault>>
    requires target { W.health target.old ≡ Well }
    requires empty { held_bytes writer.old ≡ [] }
    ensures dump { (reads : List PartRead) (rows : List ByteRow)
        → AreToldAgain S.written S.health limits (P.bytes parts.now) reads objects.now
        → IsUnion (objects_of reads) rows
        → WritesOrStops (W.written target.old) (W.written target.new) result (dump_with (heap_of heap.now) rows) }
    ensures stops { IfErr result (λ stop. (reads : List PartRead) (rows : List ByteRow)
        → AreToldAgain S.written S.health limits (P.bytes parts.now) reads objects.now → IsUnion (objects_of reads) rows
        → AreSubRecords rows → IsOfDevices stop) }
    ensures again { IfErr result (TellsChange S.written S.health limits (P.bytes parts.now) objects.now) }
    ensures health { LeavesTarget result (W.health target.new) }
{
    if let Err(fault) = write_front(Version::V102, heap, target) {
        return Err(ObjectFault::Sink(SegmentFault::Write(fault)));
    }
    take_subs(alloc, heap, writer, target)?;
    take_objects(alloc, objects, parts, limits, writer, target)?;
    match write_end(writer, target) {
        Ok(()) => Ok(()),
        Err(fault) => Err(ObjectFault::Sink(SegmentFault::Write(fault))),
    }
}
