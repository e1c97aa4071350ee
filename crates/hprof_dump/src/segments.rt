//! Writing sub-records in segments that are as full as they can be.

ghost use Rattle.std.specs.Prelude.{◌≡◌, ◌≤◌, ◌∷◌, ◌++◌, length, take, drop, flat_map, IfSome, OnOk};
ghost use Rattle.hprof_devices.specs.declared.health.Health.TheVariants.{Well};
ghost use Rattle.hprof_devices.specs.Device.{Writes, LeavesHealth};
ghost use Rattle.hprof_items.specs.Spelling.{longest_body};
ghost use Rattle.hprof_items.specs.SubRecord.{dump_bytes};
ghost use Rattle.hprof_dump.specs.Dump.{segment_bytes, sub_facts_bytes};
ghost use Rattle.hprof_heap.specs.Heap.{heap_of};
ghost use Rattle.hprof_rows.specs.SubRow.{sub_fact, IsWritable};
ghost use Rattle.hprof_dump.specs.Batch.{batch_bytes, WritesSome};
ghost use Rattle.hprof_dump.specs.Counted.{IsFirstSegment, with_taken};
ghost use Rattle.hprof_rows.specs.SubRows.{subs_left, subs_ids};

use crate::batch::Batch;
use hprof_devices::{Target, WriteFault};
use hprof_heap::Heap;
use hprof_items::tag;
use hprof_rows::{SubRow, SubRows};
use hprof_writing::write_head;

/// The largest number of bytes of a segment with more than one sub-record.
const MOST_IN_SEGMENT: u64 = 1_048_576;

/// A segment that was counted: the number of its sub-records, the number of their bytes, and the sub-record after them.
#[derive(Clone, Copy)]
struct Segment<'a> {
    count: u64,
    len: u64,
    next: Option<SubRow<'a>>,
}

/// Counts a segment, from its first sub-record to the first of the next segment.
fn count_segment<'a>(first: SubRow<'a>, ahead: &mut SubRows<'a>) -> Segment<'a>
    requires { IsWritable (subs_ids ahead.old) first }
    ensures counted { IsFirstSegment (subs_ids ahead.old) (sub_fact (subs_ids ahead.old) first.entry ∷ subs_left ahead.old) result.count
        result.len
        (with_taken (subs_ids ahead.old) result.next (subs_left ahead.new)) }
    ensures next { IfSome result.next (IsWritable (subs_ids ahead.old)) }
    ensures ids { subs_ids ahead.new ≡ subs_ids ahead.old }
{
    let ids = ahead.ids();
    let mut count = 1;
    let mut len = first.len(ids);
    while let Some(row) = ahead.next() {
        let longer = len + row.len(ids);
        if longer > MOST_IN_SEGMENT {
            let next = Some(row);
            return Segment { count, len, next };
        }
        count += 1;
        len = longer;
    }
    Segment {
        count,
        len,
        next: None,
    }
}

/// Takes the next `count` sub-records into a batch. If this fails, a prefix of the waiting bytes and the sub-records was written.
fn take_rows<W: Target>(
    rows: &mut SubRows<'_>,
    count: u64,
    batch: &mut Batch,
    target: &mut W,
) -> Result<(), WriteFault>
    requires { W.health target.old ≡ Well }
    ensures bytes { WritesSome (W.written target.old) (W.written target.new) result
        (batch_bytes batch.old ++ flat_map (dump_bytes (subs_ids rows.old)) (take count (subs_left rows.old))) (batch_bytes batch.new) }
    ensures left { OnOk result (subs_left rows.new ≡ drop count (subs_left rows.old)) }
    ensures ids { subs_ids rows.new ≡ subs_ids rows.old }
    ensures health { LeavesHealth result (W.health target.new) }
{
    let ids = rows.ids();
    let mut left = count;
    while left > 0 {
        let Some(row) = rows.next() else {
            return Ok(());
        };
        batch.take(row, ids, target)?;
        left -= 1;
    }
    Ok(())
}

/// Writes the next `count` sub-records. If this fails, a prefix of them was written.
fn write_rows<W: Target>(
    rows: &mut SubRows<'_>,
    count: u64,
    target: &mut W,
) -> Result<(), WriteFault>
    requires { W.health target.old ≡ Well }
    ensures bytes { Writes (W.written target.old) (W.written target.new) result
        (flat_map (dump_bytes (subs_ids rows.old)) (take count (subs_left rows.old))) }
    ensures left { OnOk result (subs_left rows.new ≡ drop count (subs_left rows.old)) }
    ensures ids { subs_ids rows.new ≡ subs_ids rows.old }
    ensures health { LeavesHealth result (W.health target.new) }
{
    let mut batch = Batch::empty();
    take_rows(rows, count, &mut batch, target)?;
    batch.write(target)
}

/// Writes a segment of the next `count` sub-records, which have `len` bytes. If this fails, a prefix of it was written.
fn write_segment<W: Target>(
    rows: &mut SubRows<'_>,
    count: u64,
    len: u64,
    target: &mut W,
) -> Result<(), WriteFault>
    requires well { W.health target.old ≡ Well }
    requires len { len ≡ length (flat_map (dump_bytes (subs_ids rows.old)) (take count (subs_left rows.old))) }
    requires short { len ≤ longest_body }
    ensures bytes { Writes (W.written target.old) (W.written target.new) result
        (segment_bytes (subs_ids rows.old) (take count (subs_left rows.old))) }
    ensures left { OnOk result (subs_left rows.new ≡ drop count (subs_left rows.old)) }
    ensures ids { subs_ids rows.new ≡ subs_ids rows.old }
    ensures health { LeavesHealth result (W.health target.new) }
{
    write_head(tag::HEAP_DUMP_SEGMENT, len as u32, target)?;
    write_rows(rows, count, target)
}

/// Writes the sub-records of a heap in segments. Each segment is counted first, and then written. If this fails, a prefix was written.
pub(crate) fn write_segments<W: Target>(heap: &Heap, target: &mut W) -> Result<(), WriteFault>
    requires { W.health target.old ≡ Well }
    ensures bytes { Writes (W.written target.old) (W.written target.new) result
        (sub_facts_bytes (heap_of heap.now).ids (heap_of heap.now).facts) }
    ensures health { LeavesHealth result (W.health target.new) }
{
    let mut rows = heap.sub_rows();
    let mut ahead = heap.sub_rows();
    let mut next = ahead.next();
    while let Some(first) = next {
        let segment = count_segment(first, &mut ahead);
        write_segment(&mut rows, segment.count, segment.len, target)?;
        next = segment.next;
    }
    Ok(())
}
