//! The report `retained`: which classes and types keep most alive.

ghost use Rattle.std.specs.Prelude.{◌≡◌, ℕ, List, IfOk, map, string_bytes};
ghost use Rattle.std.specs.List.{flat_map};
ghost use Rattle.hprof_devices.specs.declared.health.Health.TheVariants.{Well};
ghost use Rattle.hprof_values.specs.declared.ids.IdSize.{IdSize};
ghost use Rattle.hprof_items.specs.FactValue.{FactValue};
ghost use Rattle.hprof_rows.specs.Conflict.{IsConsistent};
ghost use Rattle.hprof_heap.specs.HeapFacts.{facts_of, size_of};
ghost use Rattle.hprof_passes.specs.Finding.{Finds};
ghost use Rattle.hprof_naming.specs.ClassNames.{AreClassNames};
ghost use Rattle.hprof_lines.specs.Passed.{EndsPassed};
ghost use Rattle.hprof_lines.specs.Stopping.{LeavesTarget, WritesText};
ghost use Rattle.hprof_retained.specs.CachedReferences.{AreCachedReferences};
ghost use Rattle.hprof_retained.specs.Tree.{IsTreeOf, count_of};
ghost use Rattle.hprof_by_label.specs.Labels.{AreNodeLabels, HaveSizes, place_count};
ghost use Rattle.hprof_by_label.specs.RetainedText.{IsRetainedText, row_line};
ghost use Rattle.hprof_by_label.specs.RowValues.{row_value};

use crate::labels::{labels_of, labels_over};
use crate::node_labels::NodeLabels;
use crate::row::Row;
use crate::rows::rows_in;
use hprof_devices::Target;
use hprof_engine::ProductFault;
use hprof_heap::{Heap, holds_of_heap};
use hprof_lines::{stop_of_pass, write_line};
use hprof_naming::ClassNames;
use hprof_passes::{Objects, PassFault};
use hprof_retained::{CachedReferences, Retained};
use std::alloc::{AllocError, Global};

/// Returns the line of a row. If memory runs out, the answer is `AllocError`.
fn row_line(alloc: Global, row: &Row<'_>) -> Result<String, AllocError>
    ensures { IfOk result (λ line. string_bytes line ≡ row_line (row_value row.now)) }
{
    let retained = row.retained;
    let bytes = row.bytes;
    let count = row.count;
    let label = row.label;
    format!(in alloc; "{retained} {bytes} {count} {label}\n")
}

/// Writes the lines of rows. If it stops, some of them were written, from the front.
fn write_rows<W: Target>(
    alloc: Global,
    rows: &[Row<'_>],
    target: &mut W,
) -> Result<(), ProductFault>
    requires { W.health target.old ≡ Well }
    ensures bytes { WritesText (W.written target.old) (W.written target.new) result (flat_map row_line (map row_value rows.now)) }
    ensures health { LeavesTarget result (W.health target.new) }
{
    for row in rows {
        write_line(row_line(alloc, row), target)?;
    }
    Ok(())
}

/// Writes the report on a tree whose nodes have these labels. If it stops, some of it was written, from the front.
fn write_labels<W: Target>(
    alloc: Global,
    retained: &Retained,
    labels: &NodeLabels,
    target: &mut W,
) -> Result<(), ProductFault>
    requires as_many { place_count labels.now ≡ count_of retained.now }
    requires well { W.health target.old ≡ Well }
    ensures bytes { (ids : IdSize) (facts : List FactValue) → IsConsistent facts → IsTreeOf ids facts retained.now
        → AreNodeLabels facts retained.now labels.now → HaveSizes ids facts retained.now labels.now
        → (text : List ℕ) × IsRetainedText ids facts text × WritesText (W.written target.old) (W.written target.new) result text }
    ensures health { LeavesTarget result (W.health target.new) }
{
    let rows = rows_in(alloc, retained, labels)?;
    write_rows(alloc, &rows, target)
}

/// Writes the report `retained` on a heap with its objects in memory, as [`write_retained_over`] does. `retained` is what its nodes retain.
/// If the writer fails or memory runs out, the bytes written are the beginning of the report.
pub fn write_retained<W: Target>(
    alloc: Global,
    heap: &Heap,
    names: &ClassNames,
    retained: &Retained,
    target: &mut W,
) -> Result<(), ProductFault>
    requires names { AreClassNames (facts_of heap.now) names.now }
    requires retained { IsTreeOf (size_of heap.now) (facts_of heap.now) retained.now }
    requires well { W.health target.old ≡ Well }
    ensures bytes { (text : List ℕ) × IsRetainedText (size_of heap.now) (facts_of heap.now) text
        × WritesText (W.written target.old) (W.written target.new) result text }
    ensures health { LeavesTarget result (W.health target.new) }
{
    holds_of_heap(heap);
    let labels = labels_of(alloc, heap, names, retained)?;
    write_labels(alloc, retained, &labels, target)
}

/// What a report on the labels of a tree is made of.
#[derive(Drop)]
struct LabelledTree {
    retained: Retained,
    labels: NodeLabels,
}

/// Returns the tree of dominators of the strong references that objects make up with a heap, and the labels of its nodes.
fn labelled_tree<O: Objects>(
    alloc: Global,
    heap: &Heap,
    objects: &O,
    references: &mut CachedReferences,
) -> Result<LabelledTree, PassFault<AllocError, O::Fault>>
    requires references { AreCachedReferences (O.make_up objects.now (size_of heap.now) (facts_of heap.now))
        (O.agree objects.now (size_of heap.now) (facts_of heap.now)) (size_of heap.now) references.old }
    ensures as_many { IfOk result (λ made. place_count made.labels ≡ count_of made.retained) }
    ensures made { Finds (O.make_up objects.now (size_of heap.now) (facts_of heap.now))
        (O.agree objects.now (size_of heap.now) (facts_of heap.now))
        (O.tells objects.now (size_of heap.now) (facts_of heap.now))
        (λ all made. IsTreeOf (size_of heap.now) all made.retained × AreNodeLabels all made.retained made.labels
        × HaveSizes (size_of heap.now) all made.retained made.labels) result }
    ensures references { AreCachedReferences (O.make_up objects.now (size_of heap.now) (facts_of heap.now))
        (O.agree objects.now (size_of heap.now) (facts_of heap.now)) (size_of heap.now) references.new }
{
    let Ok(names) = ClassNames::of(alloc, heap) else {
        return Err(PassFault::Sink(AllocError));
    };
    let retained = match references.take_retained(alloc, heap, objects) {
        Ok(retained) => retained,
        Err(stop) => return Err(stop),
    };
    match labels_over(alloc, heap, objects, &names, &retained) {
        Ok(labels) => Ok(LabelledTree { retained, labels }),
        Err(stop) => Err(stop),
    }
}

/// Writes the report `retained`. The heap has all facts but the objects, which are gone through four or five times.
///
/// The report has a line for each label of a class or an object that strong references reach: the bytes that go if all nodes with the
/// label go, at least; their own bytes; their number; and the label. The label that retains the most bytes comes first. Its form is this
/// project's own.
///
/// # Errors
///
/// - `Sink`: the writer failed or memory ran out. The bytes written are the beginning of the report.
/// - `Lost`: the objects cannot be gone through. Nothing was written.
pub fn write_retained_over<O: Objects, W: Target>(
    alloc: Global,
    heap: &Heap,
    objects: &O,
    references: &mut CachedReferences,
    target: &mut W,
) -> Result<(), PassFault<ProductFault, O::Fault>>
    requires references { AreCachedReferences (O.make_up objects.now (size_of heap.now) (facts_of heap.now))
        (O.agree objects.now (size_of heap.now) (facts_of heap.now)) (size_of heap.now) references.old }
    requires well { W.health target.old ≡ Well }
    ensures ends { EndsPassed (O.make_up objects.now (size_of heap.now) (facts_of heap.now))
        (O.agree objects.now (size_of heap.now) (facts_of heap.now)) (O.tells objects.now (size_of heap.now) (facts_of heap.now))
        (IsRetainedText (size_of heap.now)) W.written W.health target.old target.new result }
    ensures references { AreCachedReferences (O.make_up objects.now (size_of heap.now) (facts_of heap.now))
        (O.agree objects.now (size_of heap.now) (facts_of heap.now)) (size_of heap.now) references.new }
{
    let LabelledTree { retained, labels } = match labelled_tree(alloc, heap, objects, references) {
        Ok(made) => made,
        Err(stop) => return Err(stop_of_pass(stop)),
    };
    let outcome = write_labels(alloc, &retained, &labels, target);
    references.keep_retained(retained);
    match outcome {
        Ok(()) => Ok(()),
        Err(stop) => Err(PassFault::Sink(stop)),
    }
}
