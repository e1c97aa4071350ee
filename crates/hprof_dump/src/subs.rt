//! Writing the sub-records of a heap in one HEAP_DUMP record: they are counted first, and then written.

ghost use Rattle.std.specs.Prelude.{◌≡◌, ◌≤◌, ◌++◌, flat_map, IfSome, MatchOption};
ghost use Rattle.hprof_devices.specs.declared.health.Health.TheVariants.{Well};
ghost use Rattle.hprof_devices.specs.Device.{Writes, LeavesHealth};
ghost use Rattle.hprof_items.specs.SubRecord.{dump_bytes};
ghost use Rattle.hprof_rows.specs.SubFacts.{sub_facts};
ghost use Rattle.hprof_heap.specs.Heap.{heap_of};
ghost use Rattle.hprof_dump.specs.Batch.{batch_bytes, WritesSome};
ghost use Rattle.hprof_dump.specs.Dump101.{sub_len, heap_dump, IsTooLong};

use crate::batch::Batch;
use hprof_devices::{Target, WriteFault};
use hprof_heap::Heap;
use hprof_items::tag;
use hprof_writing::write_head;

/// Returns the number of bytes of the heap's sub-records, or `None` if it is more than `most`.
pub(crate) fn count_subs(heap: &Heap, most: u32) -> Option<u32>
    ensures len { MatchOption result (IsTooLong most (heap_of heap.now).ids (heap_of heap.now).facts)
        (λ len. len ≡ sub_len (heap_of heap.now).ids (heap_of heap.now).facts) }
    ensures most { IfSome result (λ len. len ≤ most) }
{
    let mut rows = heap.sub_rows();
    let ids = rows.ids();
    let mut len = 0;
    while let Some(row) = rows.next() {
        len += row.len(ids);
        if len > u64::from(most) {
            return None;
        }
    }
    Some(len as u32)
}

/// Takes the heap's sub-records into a batch. If this fails, a prefix of the waiting bytes and the sub-records was written.
fn take_rows<W: Target>(heap: &Heap, batch: &mut Batch, target: &mut W) -> Result<(), WriteFault>
    requires { W.health target.old ≡ Well }
    ensures bytes { WritesSome (W.written target.old) (W.written target.new) result
        (batch_bytes batch.old ++ flat_map (dump_bytes (heap_of heap.now).ids) (sub_facts (heap_of heap.now).facts))
        (batch_bytes batch.new) }
    ensures health { LeavesHealth result (W.health target.new) }
{
    let mut rows = heap.sub_rows();
    let ids = rows.ids();
    while let Some(row) = rows.next() {
        batch.take(row, ids, target)?;
    }
    Ok(())
}

/// Writes the heap's sub-records. If this fails, a prefix of them was written.
fn write_rows<W: Target>(heap: &Heap, target: &mut W) -> Result<(), WriteFault>
    requires { W.health target.old ≡ Well }
    ensures bytes { Writes (W.written target.old) (W.written target.new) result
        (flat_map (dump_bytes (heap_of heap.now).ids) (sub_facts (heap_of heap.now).facts)) }
    ensures health { LeavesHealth result (W.health target.new) }
{
    let mut batch = Batch::empty();
    take_rows(heap, &mut batch, target)?;
    batch.write(target)
}

/// Writes the heap's sub-records, which have `len` bytes, in one HEAP_DUMP record. Writes nothing if there are none. If this fails, a
/// prefix of it was written.
pub(crate) fn write_heap_dump<W: Target>(
    heap: &Heap,
    len: u32,
    target: &mut W,
) -> Result<(), WriteFault>
    requires well { W.health target.old ≡ Well }
    requires len { len ≡ sub_len (heap_of heap.now).ids (heap_of heap.now).facts }
    ensures bytes { Writes (W.written target.old) (W.written target.new) result
        (heap_dump (heap_of heap.now).ids (sub_facts (heap_of heap.now).facts)) }
    ensures health { LeavesHealth result (W.health target.new) }
{
    if len == 0 {
        return Ok(());
    }
    write_head(tag::HEAP_DUMP, len, target)?;
    write_rows(heap, target)
}
