//! The report `classes`: each class dump, with the objects of the class.

ghost use Rattle.std.specs.Prelude.{◌≡◌, ℕ, List, IfOk, IsSome, string_bytes};
ghost use Rattle.hprof_devices.specs.declared.health.Health.TheVariants.{Well};
ghost use Rattle.hprof_items.specs.FactValue.{FactValue};
ghost use Rattle.hprof_heap.specs.ClassDump.{class_value};
ghost use Rattle.hprof_heap.specs.HeapFacts.{facts_of, size_of};
ghost use Rattle.hprof_passes.specs.Passing.{IsWhole};
ghost use Rattle.hprof_histogram.specs.CountedKinds.{IsTally};
ghost use Rattle.hprof_histogram.specs.Known.{MadeUpWith};
ghost use Rattle.hprof_naming.specs.ClassNames.{AreClassNames};
ghost use Rattle.hprof_naming.specs.Naming.{IsNaming, Naming};
ghost use Rattle.hprof_lines.specs.Passed.{EndsPassed};
ghost use Rattle.hprof_lines.specs.Stopping.{LeavesTarget, WritesText};
ghost use Rattle.hprof_reports.specs.ClassDumps.{dumps_in};
ghost use Rattle.hprof_reports.specs.ClassesText.{IsClassesText, class_end, class_line, classes_text, counted_line};

use hprof_devices::Target;
use hprof_engine::ProductFault;
use hprof_heap::{ClassDump, Heap, Table, holds_of_heap, table_facts, to_class_dump};
use hprof_histogram::{Counted, CountedKinds, count_known};
use hprof_lines::{stop_of_pass, write_line};
use hprof_naming::{ClassNames, label_of};
use hprof_passes::{InHeap, Objects, PassFault};
use std::alloc::{AllocError, Global};

/// Returns the end of a class's line: its objects, and its label.
fn class_end(alloc: Global, bytes: u128, count: u64, label: &str) -> Result<String, AllocError>
    ensures { IfOk result (λ end. string_bytes end ≡ class_end bytes count label.now) }
{
    format!(in alloc; "{bytes} objects {count} {label}\n")
}

/// Returns the line of a class of which there are such objects.
fn counted_line(
    alloc: Global,
    counted: Counted,
    id: u64,
    parent: u64,
    label: &str,
) -> Result<String, AllocError>
    ensures { IfOk result (λ line. string_bytes line ≡ counted_line counted id parent label.now) }
{
    let end = class_end(alloc, counted.bytes, counted.count, label)?;
    format!(in alloc; "{id:x} super {parent:x} bytes {end}")
}

/// Returns the line of a class dump. If memory runs out, the answer is `AllocError`.
fn class_line(
    alloc: Global,
    heap: &Heap,
    names: &ClassNames,
    counts: &CountedKinds,
    dump: &ClassDump<'_>,
) -> Result<String, AllocError>
    requires named { AreClassNames (facts_of heap.now) names.now }
    ensures { (naming : Naming) (all : List FactValue) → IsNaming (facts_of heap.now) naming → IsTally (size_of heap.now) all counts.now
        → IfOk result (λ line. string_bytes line ≡ class_line naming (size_of heap.now) all (class_value dump.now)) }
{
    holds_of_heap(heap);
    let ClassDump { id, parent, .. } = *dump;
    let label = label_of(alloc, heap, names.name_of(id))?;
    counted_line(alloc, counts.of_class(id), id, parent, &label)
}

/// Writes a line for each class dump. If it stops, some of them were written, from the front.
fn write_dumps<W: Target>(
    alloc: Global,
    heap: &Heap,
    names: &ClassNames,
    counts: &CountedKinds,
    target: &mut W,
) -> Result<(), ProductFault>
    requires named { AreClassNames (facts_of heap.now) names.now }
    requires well { W.health target.old ≡ Well }
    ensures bytes { (naming : Naming) (all : List FactValue) → IsNaming (facts_of heap.now) naming
        → IsTally (size_of heap.now) all counts.now
        → WritesText (W.written target.old) (W.written target.new) result
        (classes_text naming (size_of heap.now) all (dumps_in (facts_of heap.now))) }
    ensures health { LeavesTarget result (W.health target.new) }
{
    for fact in table_facts(heap, Table::Classes) {
        if let Some(dump) = to_class_dump(&fact) {
            write_line(class_line(alloc, heap, names, counts, &dump), target)?;
        }
    }
    Ok(())
}

/// Writes a line for each class dump, of whose objects these are the counts. If the writer fails or memory runs out, the bytes written are
/// the beginning of them.
fn write_counted<W: Target>(
    alloc: Global,
    heap: &Heap,
    counts: &CountedKinds,
    target: &mut W,
) -> Result<(), ProductFault>
    requires { W.health target.old ≡ Well }
    ensures bytes { (all : List FactValue) → IsWhole (size_of heap.now) (facts_of heap.now) all
        → IsTally (size_of heap.now) all counts.now → (text : List ℕ) × IsClassesText (size_of heap.now) all text
        × WritesText (W.written target.old) (W.written target.new) result text }
    ensures health { LeavesTarget result (W.health target.new) }
{
    let names = ClassNames::of(alloc, heap)?;
    write_dumps(alloc, heap, &names, counts, target)
}

/// Writes the report `classes`: a line for each class dump, in order of identifier, with its superclass and the objects of the class. The
/// heap has all facts but the objects. They are not gone through if their counts are known.
///
/// # Errors
///
/// - `Sink`: the writer failed or memory ran out. The bytes written are the beginning of the report.
/// - `Lost`: the objects cannot be gone through. Nothing was written.
pub fn write_classes_over<O: Objects, W: Target>(
    alloc: Global,
    heap: &Heap,
    objects: &O,
    known: Option<CountedKinds>,
    target: &mut W,
) -> Result<(), PassFault<ProductFault, O::Fault>>
    requires well { W.health target.old ≡ Well }
    requires agree { IsSome known → O.agree objects.now (size_of heap.now) (facts_of heap.now) }
    ensures { EndsPassed (MadeUpWith (O.make_up objects.now (size_of heap.now) (facts_of heap.now)) (size_of heap.now) known)
        (O.agree objects.now (size_of heap.now) (facts_of heap.now)) (O.tells objects.now (size_of heap.now) (facts_of heap.now))
        (IsClassesText (size_of heap.now)) W.written W.health target.old target.new result }
{
    let counts = match count_known(alloc, heap, objects, known) {
        Ok(counts) => counts,
        Err(stop) => return Err(stop_of_pass(stop)),
    };
    match write_counted(alloc, heap, &counts, target) {
        Ok(()) => Ok(()),
        Err(stop) => Err(PassFault::Sink(stop)),
    }
}

/// Writes the report `classes` on a heap with its objects in memory, as [`write_classes_over`] does. If the writer fails or memory runs
/// out, the bytes written are the beginning of the report.
pub fn write_classes<W: Target>(
    alloc: Global,
    heap: &Heap,
    target: &mut W,
) -> Result<(), ProductFault>
    requires { W.health target.old ≡ Well }
    ensures bytes { (text : List ℕ) × IsClassesText (size_of heap.now) (facts_of heap.now) text
        × WritesText (W.written target.old) (W.written target.new) result text }
    ensures health { LeavesTarget result (W.health target.new) }
{
    holds_of_heap(heap);
    match write_classes_over(alloc, heap, &InHeap, None, target) {
        Ok(()) => Ok(()),
        Err(stop) => Err(stop.of_sink()),
    }
}
