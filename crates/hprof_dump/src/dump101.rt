//! Writing the 1.0.1 dump.

ghost use Rattle.std.specs.Prelude.{◌≡◌, ◌↔◌, Err};
ghost use Rattle.hprof_devices.specs.declared.health.Health.TheVariants.{Well};
ghost use Rattle.hprof_devices.specs.Device.{Writes, LeavesHealth};
ghost use Rattle.hprof_heap.specs.Heap.{heap_of};
ghost use Rattle.hprof_dump.specs.Dump101.{dump101, sub_len, IsTooLong, EndsDump};
ghost use Rattle.hprof_dump.specs.declared.fault.DumpFault.TheVariants.{TooLong};

use crate::canonical::write_records;
use crate::fault::DumpFault;
use crate::subs::{count_subs, write_heap_dump};
use hprof_devices::{Target, WriteFault};
use hprof_heap::Heap;
use hprof_items::{Header, Version};
use hprof_writing::write_header;

/// Writes the 1.0.1 dump of a heap whose sub-records have `len` bytes. If this fails, a prefix was written.
fn write_dump<W: Target>(heap: &Heap, len: u32, target: &mut W) -> Result<(), WriteFault>
    requires well { W.health target.old ≡ Well }
    requires len { len ≡ sub_len (heap_of heap.now).ids (heap_of heap.now).facts }
    ensures bytes { Writes (W.written target.old) (W.written target.new) result
        (dump101 (heap_of heap.now).ids (heap_of heap.now).millis (heap_of heap.now).facts) }
    ensures health { LeavesHealth result (W.health target.new) }
{
    let header = Header {
        version: Version::V101,
        ids: heap.ids(),
        millis: heap.millis(),
    };
    write_header(&header, target)?;
    write_records(heap, target)?;
    write_heap_dump(heap, len, target)
}

/// Writes the 1.0.1 dump: the header of version 1.0.1 with the heap's identifier size and time, then the facts that have records of their
/// own, in order, and one HEAP_DUMP record with all sub-records, if there are any.
///
/// Allocates nothing, and does not flush.
///
/// - `TooLong`: the sub-records have more than `max_body` bytes in all. Nothing was written.
/// - `Write`: the target failed or took no more bytes. A prefix of the dump was written.
pub fn write_v101<W: Target>(heap: &Heap, max_body: u32, target: &mut W) -> Result<(), DumpFault>
    requires { W.health target.old ≡ Well }
    ensures too_long { (result ≡ Err TooLong) ↔ IsTooLong max_body (heap_of heap.now).ids (heap_of heap.now).facts }
    ensures ends { EndsDump W.written W.health (dump101 (heap_of heap.now).ids (heap_of heap.now).millis (heap_of heap.now).facts)
        target.old target.new result }
{
    let Some(len) = count_subs(heap, max_body) else {
        return Err(DumpFault::TooLong);
    };
    write_dump(heap, len, target)?;
    Ok(())
}
