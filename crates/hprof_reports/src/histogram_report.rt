//! The report `histo`: the number of objects of each class and array type, and their bytes.

ghost use Rattle.std.specs.Prelude.{◌≡◌, ℕ, List, IfOk, IsSome, string_bytes};
ghost use Rattle.hprof_devices.specs.declared.health.Health.TheVariants.{Well};
ghost use Rattle.hprof_items.specs.FactValue.{FactValue};
ghost use Rattle.hprof_heap.specs.HeapFacts.{facts_of, size_of};
ghost use Rattle.hprof_passes.specs.Passing.{IsWhole};
ghost use Rattle.hprof_histogram.specs.Histogram.{IsHistogram};
ghost use Rattle.hprof_histogram.specs.Known.{MadeUpWith};
ghost use Rattle.hprof_naming.specs.ClassNames.{AreClassNames};
ghost use Rattle.hprof_naming.specs.Naming.{IsNaming, Naming};
ghost use Rattle.hprof_reports.specs.HistogramText.{IsHistogramText, array_row_line, class_row_line, row_line, rows_text};
ghost use Rattle.hprof_lines.specs.Passed.{EndsPassed};
ghost use Rattle.hprof_lines.specs.Stopping.{LeavesTarget, WritesText};

use hprof_devices::Target;
use hprof_engine::ProductFault;
use hprof_heap::{Heap, holds_of_heap};
use hprof_histogram::{CountedKinds, Kind, Row, histogram_over};
use hprof_lines::{stop_of_pass, write_line};
use hprof_naming::{ClassNames, label_of, type_word};
use hprof_passes::{InHeap, Objects, PassFault};
use hprof_values::Basic;
use std::alloc::{AllocError, Global};

/// Returns the line of a row of a class that has this label.
fn class_row_line(
    alloc: Global,
    bytes: u128,
    count: u64,
    class: u64,
    label: &str,
) -> Result<String, AllocError>
    ensures { IfOk result (λ line. string_bytes line ≡ class_row_line bytes count class label.now) }
{
    format!(in alloc; "{bytes} {count} {class:x} {label}\n")
}

/// Returns the line of a row of arrays of that type.
fn array_row_line(alloc: Global, bytes: u128, count: u64, elem: Basic) -> Result<String, AllocError>
    ensures { IfOk result (λ line. string_bytes line ≡ array_row_line bytes count elem) }
{
    let word = type_word(elem);
    format!(in alloc; "{bytes} {count} - {word}[]\n")
}

/// Returns the line of a row. If memory runs out, the answer is `AllocError`.
fn row_line(alloc: Global, heap: &Heap, names: &ClassNames, row: &Row) -> Result<String, AllocError>
    requires { AreClassNames (facts_of heap.now) names.now }
    ensures { (naming : Naming) → IsNaming (facts_of heap.now) naming
        → IfOk result (λ line. string_bytes line ≡ row_line naming row.now) }
{
    holds_of_heap(heap);
    let Row { kind, count, bytes } = *row;
    match kind {
        Kind::Class(class) => {
            let label = label_of(alloc, heap, names.name_of(class))?;
            class_row_line(alloc, bytes, count, class, &label)
        }
        Kind::Prim(elem) => array_row_line(alloc, bytes, count, elem),
    }
}

/// Writes a line for each row. If it stops, some of them were written, from the front.
fn write_rows<W: Target>(
    alloc: Global,
    heap: &Heap,
    names: &ClassNames,
    rows: &[Row],
    target: &mut W,
) -> Result<(), ProductFault>
    requires named { AreClassNames (facts_of heap.now) names.now }
    requires well { W.health target.old ≡ Well }
    ensures bytes { (naming : Naming) → IsNaming (facts_of heap.now) naming
        → WritesText (W.written target.old) (W.written target.new) result (rows_text naming rows.now) }
    ensures health { LeavesTarget result (W.health target.new) }
{
    let mut rest = rows;
    while let Some((row, after)) = rest.split_first() {
        write_line(row_line(alloc, heap, names, row), target)?;
        rest = after;
    }
    Ok(())
}

/// Writes a line for each row of a histogram. If the writer fails or memory runs out, the bytes written are the beginning of them.
fn write_histogram_rows<W: Target>(
    alloc: Global,
    heap: &Heap,
    rows: &[Row],
    target: &mut W,
) -> Result<(), ProductFault>
    requires { W.health target.old ≡ Well }
    ensures bytes { (all : List FactValue) → IsWhole (size_of heap.now) (facts_of heap.now) all
        → IsHistogram (size_of heap.now) all rows.now → (text : List ℕ) × IsHistogramText (size_of heap.now) all text
        × WritesText (W.written target.old) (W.written target.new) result text }
    ensures health { LeavesTarget result (W.health target.new) }
{
    let names = ClassNames::of(alloc, heap)?;
    write_rows(alloc, heap, &names, rows, target)
}

/// Writes the report `histo`: a line for each class and each array type that has objects, those with the most bytes first. The heap has all
/// facts but the objects. They are not gone through if their counts are known.
///
/// # Errors
///
/// - `Sink`: the writer failed or memory ran out. The bytes written are the beginning of the report.
/// - `Lost`: the objects cannot be gone through. Nothing was written.
pub fn write_histogram_over<O: Objects, W: Target>(
    alloc: Global,
    heap: &Heap,
    objects: &O,
    known: Option<CountedKinds>,
    target: &mut W,
) -> Result<(), PassFault<ProductFault, O::Fault>>
    requires well { W.health target.old ≡ Well }
    requires agree { IsSome known → O.agree objects.now (size_of heap.now) (facts_of heap.now) }
    ensures { EndsPassed (MadeUpWith (O.make_up objects.now (size_of heap.now) (facts_of heap.now)) (size_of heap.now) known)
        (O.agree objects.now (size_of heap.now) (facts_of heap.now)) (O.tells objects.now (size_of heap.now) (facts_of heap.now))
        (IsHistogramText (size_of heap.now)) W.written W.health target.old target.new result }
{
    let rows = match histogram_over(alloc, heap, objects, known) {
        Ok(rows) => rows,
        Err(stop) => return Err(stop_of_pass(stop)),
    };
    match write_histogram_rows(alloc, heap, &rows, target) {
        Ok(()) => Ok(()),
        Err(stop) => Err(PassFault::Sink(stop)),
    }
}

/// Writes the report `histo` on a heap with its objects in memory, as [`write_histogram_over`] does. If the writer fails or memory runs
/// out, the bytes written are the beginning of the report.
pub fn write_histogram<W: Target>(
    alloc: Global,
    heap: &Heap,
    target: &mut W,
) -> Result<(), ProductFault>
    requires { W.health target.old ≡ Well }
    ensures bytes { (text : List ℕ) × IsHistogramText (size_of heap.now) (facts_of heap.now) text
        × WritesText (W.written target.old) (W.written target.new) result text }
    ensures health { LeavesTarget result (W.health target.new) }
{
    holds_of_heap(heap);
    match write_histogram_over(alloc, heap, &InHeap, None, target) {
        Ok(()) => Ok(()),
        Err(stop) => Err(stop.of_sink()),
    }
}
