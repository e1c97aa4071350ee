//! Writing the 1.0.1 dump of a heap whose objects are stored.

ghost use Rattle.std.specs.Prelude.{◌≡◌, List, length, IfErr};
ghost use Rattle.hprof_devices.specs.declared.health.Health.TheVariants.{Well};
ghost use Rattle.hprof_devices.specs.Device.{LeavesHealth, Writes};
ghost use Rattle.hprof_heap.specs.Heap.{heap_of};
ghost use Rattle.hprof_merge.specs.Rows.{ByteRow};
ghost use Rattle.hprof_merge.specs.Union.{IsUnion};
ghost use Rattle.hprof_objects.specs.MergedObjects.{TellsChange};
ghost use Rattle.hprof_objects.specs.PartsRead.{PartRead};
ghost use Rattle.hprof_objects.specs.StoredObjects.{AreToldAgain, objects_of};
ghost use Rattle.hprof_stored.specs.Dumping.{IsOfDevices, LeavesTarget, WritesOrStops};
ghost use Rattle.hprof_stored101.specs.Dumping101.{body_with, dump101_with, dump_head, front101, own_bytes, rows_bytes};

use crate::row_writer::RowWriter;
use hprof_devices::{Source, Target, WriteFault};
use hprof_heap::Heap;
use hprof_items::{Version, tag};
use hprof_objects::{ObjectFault, StoredObjects};
use hprof_parts::Parts;
use hprof_runs::Scratch;
use hprof_segments::SegmentFault;
use hprof_stored::write_front;
use hprof_stream::Limits;
use hprof_writing::write_head;
use std::alloc::Global;

/// Writes the head of a HEAP_DUMP record whose body has `len` bytes. Writes nothing if `len` is 0. If this fails, a prefix was written.
fn write_dump_head<W: Target>(len: u32, target: &mut W) -> Result<(), WriteFault>
    requires { W.health target.old ≡ Well }
    ensures bytes { Writes (W.written target.old) (W.written target.new) result (dump_head len) }
    ensures health { LeavesHealth result (W.health target.new) }
{
    if len == 0 {
        return Ok(());
    }
    write_head(tag::HEAP_DUMP, len, target)
}

/// Writes a heap's sub-records. If this fails, a prefix of them was written.
fn write_subs<W: Target>(heap: &Heap, target: &mut W) -> Result<(), WriteFault>
    requires { W.health target.old ≡ Well }
    ensures bytes { Writes (W.written target.old) (W.written target.new) result (own_bytes (heap_of heap.now)) }
    ensures health { LeavesHealth result (W.health target.new) }
{
    let mut rows = heap.sub_rows();
    let ids = rows.ids();
    while let Some(row) = rows.next() {
        row.write(ids, target)?;
    }
    Ok(())
}

/// Writes what stands before the objects: the header, the facts that have records, the head of the HEAP_DUMP record with a body of `len`
/// bytes, and the heap's sub-records. If this fails, a prefix was written.
fn write_front101<W: Target>(heap: &Heap, len: u32, target: &mut W) -> Result<(), WriteFault>
    requires { W.health target.old ≡ Well }
    ensures bytes { Writes (W.written target.old) (W.written target.new) result (front101 (heap_of heap.now) len) }
    ensures health { LeavesHealth result (W.health target.new) }
{
    write_front(Version::V101, heap, target)?;
    write_dump_head(len, target)?;
    write_subs(heap, target)
}

/// Writes all objects.
fn write_objects<S: Scratch + Drop, R: Source + Drop, P: Parts<Reader = R>, W: Target>(
    alloc: Global,
    objects: &StoredObjects<S>,
    parts: &P,
    limits: Limits,
    target: &mut W,
) -> Result<(), ObjectFault<SegmentFault>>
    requires { W.health target.old ≡ Well }
    ensures bytes { (reads : List PartRead) (rows : List ByteRow)
        → AreToldAgain S.written S.health limits (P.bytes parts.now) reads objects.now → IsUnion (objects_of reads) rows
        → WritesOrStops (W.written target.old) (W.written target.new) result (rows_bytes rows) }
    ensures stops { IfErr result (λ stop. (reads : List PartRead) (rows : List ByteRow)
        → AreToldAgain S.written S.health limits (P.bytes parts.now) reads objects.now → IsUnion (objects_of reads) rows
        → IsOfDevices stop) }
    ensures again { IfErr result (TellsChange S.written S.health limits (P.bytes parts.now) objects.now) }
    ensures health { LeavesTarget result (W.health target.new) }
{
    let mut writer = RowWriter::new(target);
    objects.merge(alloc, parts, limits, &mut writer)
}

/// Writes the 1.0.1 dump of a heap with stored objects, whose sub-records have `len` bytes together: the header of version 1.0.1, the facts
/// that have records, and in one HEAP_DUMP record the sub-records of the heap, and behind them the objects. The parts are those that were
/// read, and the limits those of the first reading.
///
/// # Errors
///
/// A prefix of the dump was written.
///
/// - `Sink`: the target failed or took no more bytes.
/// - The others are those of `merge`.
pub(crate) fn write_stored101<S: Scratch + Drop, R: Source + Drop, P: Parts<Reader = R>, W: Target>(
    alloc: Global,
    heap: &Heap,
    objects: &StoredObjects<S>,
    parts: &P,
    limits: Limits,
    len: u32,
    target: &mut W,
) -> Result<(), ObjectFault<SegmentFault>>
    requires { W.health target.old ≡ Well }
    ensures dump { (reads : List PartRead) (rows : List ByteRow)
        → AreToldAgain S.written S.health limits (P.bytes parts.now) reads objects.now → IsUnion (objects_of reads) rows
        → len ≡ length (body_with (heap_of heap.now) rows)
        → WritesOrStops (W.written target.old) (W.written target.new) result (dump101_with (heap_of heap.now) rows) }
    ensures stops { IfErr result (λ stop. (reads : List PartRead) (rows : List ByteRow)
        → AreToldAgain S.written S.health limits (P.bytes parts.now) reads objects.now → IsUnion (objects_of reads) rows
        → IsOfDevices stop) }
    ensures again { IfErr result (TellsChange S.written S.health limits (P.bytes parts.now) objects.now) }
    ensures health { LeavesTarget result (W.health target.new) }
{
    if let Err(fault) = write_front101(heap, len, target) {
        return Err(ObjectFault::Sink(SegmentFault::Write(fault)));
    }
    write_objects(alloc, objects, parts, limits, target)
}
