//! Writing the canonical dump.

ghost use Rattle.std.specs.Prelude.{◌≡◌, flat_map};
ghost use Rattle.hprof_devices.specs.declared.health.Health.TheVariants.{Well};
ghost use Rattle.hprof_items.specs.Spelling.{spelling};
ghost use Rattle.hprof_devices.specs.Device.{Writes, LeavesHealth};
ghost use Rattle.hprof_dump.specs.Dump.{canonical_dump, record_facts_bytes};
ghost use Rattle.hprof_rows.specs.Tables.{facts_of_table};
ghost use Rattle.hprof_heap.specs.Heap.{heap_of};

use crate::segments::write_segments;
use hprof_devices::{Target, WriteFault};
use hprof_heap::Heap;
use hprof_items::{Header, Version, tag};
use hprof_rows::Table;
use hprof_writing::{write_fact, write_head, write_header};

/// The tables of the facts that have records of their own.
const RECORD_TABLES: [Table; 7] = [
    Table::Names,
    Table::Loads,
    Table::Unloads,
    Table::Frames,
    Table::Traces,
    Table::Starts,
    Table::Ends,
];

/// Writes the facts of a table, one record each. If this fails, a prefix was written.
fn write_table<W: Target>(heap: &Heap, table: Table, target: &mut W) -> Result<(), WriteFault>
    requires { W.health target.old ≡ Well }
    ensures bytes { Writes (W.written target.old) (W.written target.new) result
        (flat_map (spelling (heap_of heap.now).ids) (facts_of_table table (heap_of heap.now).facts)) }
    ensures health { LeavesHealth result (W.health target.new) }
{
    let ids = heap.ids();
    for fact in heap.rows(table) {
        write_fact(&fact, ids, target)?;
    }
    Ok(())
}

/// Writes the facts that have records of their own, one record each, in canonical order: names, loaded classes, unloaded classes, stack
/// frames, stack traces, thread starts, thread ends. Allocates nothing. If this fails, a prefix was written.
pub fn write_records<W: Target>(heap: &Heap, target: &mut W) -> Result<(), WriteFault>
    requires { W.health target.old ≡ Well }
    ensures bytes { Writes (W.written target.old) (W.written target.new) result
        (record_facts_bytes (heap_of heap.now).ids (heap_of heap.now).facts) }
    ensures health { LeavesHealth result (W.health target.new) }
{
    for table in &RECORD_TABLES {
        write_table(heap, *table, target)?;
    }
    Ok(())
}

/// Writes the canonical dump: the header of version 1.0.2 with the heap's identifier size and time, then the heap's facts in order, and the
/// end of the dump. The facts of sub-records are in segments that are as full as they can be.
///
/// Allocates nothing, and does not flush. If this fails, a prefix of the dump was written.
pub fn write_canonical<W: Target>(heap: &Heap, target: &mut W) -> Result<(), WriteFault>
    requires { W.health target.old ≡ Well }
    ensures bytes { Writes (W.written target.old) (W.written target.new) result
        (canonical_dump (heap_of heap.now).ids (heap_of heap.now).millis (heap_of heap.now).facts) }
    ensures health { LeavesHealth result (W.health target.new) }
{
    let header = Header {
        version: Version::V102,
        ids: heap.ids(),
        millis: heap.millis(),
    };
    write_header(&header, target)?;
    write_records(heap, target)?;
    write_segments(heap, target)?;
    write_head(tag::HEAP_DUMP_END, 0, target)
}
