//! The length of the HEAP_DUMP record: the bytes of all sub-records are added up.

ghost use Rattle.std.specs.Prelude.{◌≡◌, List, length, IfErr, IfOk};
ghost use Rattle.hprof_heap.specs.Heap.{heap_of};
ghost use Rattle.hprof_merge.specs.Rows.{ByteRow};
ghost use Rattle.hprof_merge.specs.Union.{IsUnion};
ghost use Rattle.hprof_objects.specs.MergedObjects.{TellsChange};
ghost use Rattle.hprof_objects.specs.PartsRead.{PartRead};
ghost use Rattle.hprof_objects.specs.StoredObjects.{AreToldAgain, objects_of};
ghost use Rattle.hprof_stored.specs.Dumping.{FindsLeast};
ghost use Rattle.hprof_stored101.specs.ByteCounter.{capped};
ghost use Rattle.hprof_stored101.specs.Dumping101.{body_with, own_bytes};

use crate::byte_counter::ByteCounter;
use hprof_devices::Source;
use hprof_heap::Heap;
use hprof_objects::{ObjectFault, StoredObjects};
use hprof_parts::Parts;
use hprof_runs::Scratch;
use hprof_segments::SegmentFault;
use hprof_stream::Limits;
use std::alloc::Global;

/// Returns the number of bytes of a heap's sub-records, or `u64::MAX` if it is more.
fn own_len(heap: &Heap) -> u64
    ensures { result ≡ capped (length (own_bytes (heap_of heap.now))) }
{
    let mut rows = heap.sub_rows();
    let ids = rows.ids();
    let mut len: u64 = 0;
    while let Some(row) = rows.next() {
        len = len.saturating_add(row.len(ids));
    }
    len
}

/// Returns the number of bytes of a heap's sub-records and of the stored objects, or `u64::MAX` if it is more. Each object is read once.
/// The parts are those that were read, and the limits those of the first reading.
///
/// # Errors
///
/// `TwoContents`: the least identifier of which objects have two contents. The others are those of `merge`; `Sink` is never answered.
pub(crate) fn body_len<S: Scratch + Drop, R: Source + Drop, P: Parts<Reader = R>>(
    alloc: Global,
    heap: &Heap,
    objects: &StoredObjects<S>,
    parts: &P,
    limits: Limits,
) -> Result<u64, ObjectFault<SegmentFault>>
    ensures len { IfOk result (λ len. (reads : List PartRead)
        → AreToldAgain S.written S.health limits (P.bytes parts.now) reads objects.now
        → (rows : List ByteRow) × IsUnion (objects_of reads) rows × (len ≡ capped (length (body_with (heap_of heap.now) rows)))) }
    ensures least { IfErr result (λ stop. (reads : List PartRead)
        → AreToldAgain S.written S.health limits (P.bytes parts.now) reads objects.now → FindsLeast (objects_of reads) stop) }
    ensures again { IfErr result (TellsChange S.written S.health limits (P.bytes parts.now) objects.now) }
{
    let mut counter = ByteCounter {
        count: own_len(heap),
    };
    match objects.merge(alloc, parts, limits, &mut counter) {
        Ok(()) => Ok(counter.count),
        Err(stop) => Err(stop),
    }
}
