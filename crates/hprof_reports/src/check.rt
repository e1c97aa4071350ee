//! The report `check`: a summary of each part, and the number of facts in each table of their heap.

ghost use Rattle.std.specs.Prelude.{◌≡◌, ◌↔◌, List, ℕ, flat_map, length, IsTrue};
ghost use Rattle.hprof_devices.specs.declared.health.Health.TheVariants.{Well};
ghost use Rattle.hprof_devices.specs.Device.{Writes, LeavesHealth};
ghost use Rattle.hprof_items.specs.FactValue.{FactValue, value_of};
ghost use Rattle.hprof_rows.specs.Tables.{facts_of_table};
ghost use Rattle.hprof_heap.specs.Heap.{heap_of};
ghost use Rattle.hprof_heap.specs.HeapFacts.{facts_of, size_of};
ghost use Rattle.hprof_passes.specs.Passing.{IsWhole, objects_among};
ghost use Rattle.hprof_reports.specs.Check.{version_text, yes_or_no, part_line, part_lines, table_word, table_line, all_tables, IsBadName};
ghost use Rattle.hprof_reports.specs.Check.{AreBadNames, IsCheck};
ghost use Rattle.hprof_lines.specs.Passed.{EndsChecked};

use crate::line::{write_count, write_pieces};
use hprof_devices::{Target, WriteFault};
use hprof_heap::{Heap, Table, holds_of_heap, table_facts, table_len};
use hprof_items::{Fact, Version};
use hprof_passes::{Objects, PassFault};
use hprof_stream::PartSummary;
use hprof_text::is_modified;
use itoa::Buffer;
use std::alloc::Global;

/// The tables in their order.
const TABLES: [Table; 10] = [
    Table::Names,
    Table::Loads,
    Table::Unloads,
    Table::Frames,
    Table::Traces,
    Table::Starts,
    Table::Ends,
    Table::Roots,
    Table::Classes,
    Table::Objects,
];

/// Returns the number of a version.
fn version_text(version: Version) -> &'static [u8]
    ensures { result.now ≡ version_text version }
{
    match version {
        Version::V101 => b"1.0.1",
        Version::V102 => b"1.0.2",
    }
}

/// Returns the word for an answer.
fn yes_or_no(answer: bool) -> &'static [u8]
    ensures { result.now ≡ yes_or_no answer }
{
    if answer { b"yes" } else { b"no" }
}

/// Returns the word for the facts of a table.
fn table_word(table: Table) -> &'static [u8]
    ensures { result.now ≡ table_word table }
{
    match table {
        Table::Names => b"names",
        Table::Loads => b"loads",
        Table::Unloads => b"unloads",
        Table::Frames => b"frames",
        Table::Traces => b"traces",
        Table::Starts => b"starts",
        Table::Ends => b"ends",
        Table::Roots => b"roots",
        Table::Classes => b"classes",
        Table::Objects => b"objects",
    }
}

/// Writes the line of a part, which has that number. At a fault some of it was written, from the front.
fn write_part<W: Target>(
    number: usize,
    part: &PartSummary,
    target: &mut W,
) -> Result<(), WriteFault>
    requires { W.health target.old ≡ Well }
    ensures bytes { Writes (W.written target.old) (W.written target.new) result (part_line number part.now) }
    ensures health { LeavesHealth result (W.health target.new) }
{
    let mut number_digits = Buffer::new();
    let mut width_digits = Buffer::new();
    let mut millis_digits = Buffer::new();
    let mut records_digits = Buffer::new();
    let mut facts_digits = Buffer::new();
    let pieces = [
        b"part ",
        number_digits.format(number).as_bytes(),
        b": version ",
        version_text(part.header.version),
        b" ids ",
        width_digits.format(part.header.ids.width()).as_bytes(),
        b" time ",
        millis_digits.format(part.header.millis).as_bytes(),
        b" records ",
        records_digits.format(part.records).as_bytes(),
        b" facts ",
        facts_digits.format(part.facts).as_bytes(),
        b" end ",
        yes_or_no(part.ended),
        b"\n",
    ];
    write_pieces(&pieces, target)
}

/// Writes a line for each part. At a fault some of them were written, from the front.
fn write_parts<W: Target>(parts: &[PartSummary], target: &mut W) -> Result<(), WriteFault>
    requires { W.health target.old ≡ Well }
    ensures bytes { Writes (W.written target.old) (W.written target.new) result (part_lines 0 parts.now) }
    ensures health { LeavesHealth result (W.health target.new) }
{
    for (number, part) in parts.iter().enumerate() {
        write_part(number, part, target)?;
    }
    Ok(())
}

/// Returns the number of facts in a table, with so many objects.
fn count_of(heap: &Heap, objects: u64, table: Table) -> u64
    ensures { (all : List FactValue) → IsWhole (size_of heap.now) (facts_of heap.now) all → objects ≡ length (objects_among all)
        → result ≡ length (facts_of_table table all) }
{
    match table {
        Table::Objects => objects,
        table => table_len(heap, table) as u64,
    }
}

/// Writes a line for each table, with so many objects. At a fault some of them were written, from the front.
fn write_tables<W: Target>(heap: &Heap, objects: u64, target: &mut W) -> Result<(), WriteFault>
    requires { W.health target.old ≡ Well }
    ensures bytes { (all : List FactValue) → IsWhole (size_of heap.now) (facts_of heap.now) all → objects ≡ length (objects_among all)
        → Writes (W.written target.old) (W.written target.new) result (flat_map (table_line all) all_tables) }
    ensures health { LeavesHealth result (W.health target.new) }
{
    for table in &TABLES {
        write_count(table_word(*table), count_of(heap, objects, *table), target)?;
    }
    Ok(())
}

/// Returns whether a fact is a name that is not modified UTF-8.
fn is_bad_name(fact: &Fact<'_>) -> bool
    ensures { IsTrue result ↔ IsBadName (value_of fact.now) }
{
    match *fact {
        Fact::Name { text, .. } => !is_modified(text),
        _ => false,
    }
}

/// Returns the number of names that are not modified UTF-8.
fn count_bad_names(heap: &Heap) -> usize
    ensures { AreBadNames (facts_of heap.now) result }
{
    let names = table_len(heap, Table::Names);
    let mut bad = 0;
    for fact in table_facts(heap, Table::Names) {
        if is_bad_name(&fact) {
            prove!(bad < names);
            bad += 1;
        }
    }
    bad
}

/// Writes the report `check` with so many objects.
fn write_counts<W: Target>(
    summaries: &[PartSummary],
    heap: &Heap,
    objects: u64,
    target: &mut W,
) -> Result<(), WriteFault>
    requires { W.health target.old ≡ Well }
    ensures bytes { (all : List FactValue) → IsWhole (size_of heap.now) (facts_of heap.now) all → objects ≡ length (objects_among all)
        → (text : List ℕ) × IsCheck summaries.now all text × Writes (W.written target.old) (W.written target.new) result text }
    ensures health { LeavesHealth result (W.health target.new) }
{
    let bad = count_bad_names(heap);
    write_parts(summaries, target)?;
    write_tables(heap, objects, target)?;
    write_count(b"bad names", bad as u64, target)
}

/// Writes the report `check`: a line for each part, in order, a line for each table of the heap with the number of its facts,
/// and the number of names that are not modified UTF-8. The heap has all facts but the objects.
///
/// # Errors
///
/// - `Sink`: the writer failed. The bytes written are the beginning of the report.
/// - `Lost`: the objects cannot be gone through. Nothing was written.
pub fn write_check_over<O: Objects, W: Target>(
    alloc: Global,
    summaries: &[PartSummary],
    heap: &Heap,
    objects: &O,
    target: &mut W,
) -> Result<(), PassFault<WriteFault, O::Fault>>
    requires { W.health target.old ≡ Well }
    ensures { EndsChecked (O.make_up objects.now (size_of heap.now) (facts_of heap.now))
        (O.agree objects.now (size_of heap.now) (facts_of heap.now)) (O.tells objects.now (size_of heap.now) (facts_of heap.now))
        (IsCheck summaries.now) W.written W.health target.old target.new result }
{
    let count = match objects.count(alloc, heap) {
        Ok(count) => count,
        Err(fault) => return Err(PassFault::Lost(fault)),
    };
    match write_counts(summaries, heap, count, target) {
        Ok(()) => Ok(()),
        Err(fault) => Err(PassFault::Sink(fault)),
    }
}

/// Writes the report `check` on a heap with its objects in memory, as [`write_check_over`] does. It allocates and flushes nothing. If the
/// writer fails, the bytes written are the beginning of the report.
pub fn write_check<W: Target>(
    summaries: &[PartSummary],
    heap: &Heap,
    target: &mut W,
) -> Result<(), WriteFault>
    requires { W.health target.old ≡ Well }
    ensures bytes { (text : List ℕ) × IsCheck summaries.now (heap_of heap.now).facts text
        × Writes (W.written target.old) (W.written target.new) result text }
    ensures health { LeavesHealth result (W.health target.new) }
{
    holds_of_heap(heap);
    write_counts(
        summaries,
        heap,
        table_len(heap, Table::Objects) as u64,
        target,
    )
}
