//! Making the class histogram of a heap.

ghost use Rattle.std.specs.Prelude.{IfOk, IsSome, List};
ghost use Rattle.hprof_values.specs.declared.ids.IdSize.{IdSize};
ghost use Rattle.hprof_items.specs.FactValue.{FactValue};
ghost use Rattle.hprof_rows.specs.Facts.{AllFit};
ghost use Rattle.hprof_heap.specs.HeapFacts.{facts_of, size_of};
ghost use Rattle.hprof_passes.specs.Finding.{Finds};
ghost use Rattle.hprof_histogram.specs.CountedKinds.{IsTally};
ghost use Rattle.hprof_histogram.specs.Histogram.{IsHistogram};
ghost use Rattle.hprof_histogram.specs.Known.{MadeUpWith};

use crate::counted_kinds::CountedKinds;
use crate::counting::count_known;
use crate::gathering::rows_of;
use crate::row::Row;
use crate::sorting::sort_rows;
use hprof_heap::{Heap, holds_of_heap};
use hprof_passes::{InHeap, Objects, PassFault};
use std::alloc::{AllocError, Global};

/// Returns the rows of counts, in order. If memory runs out, the answer is `AllocError`.
fn rows_in_order(alloc: Global, tally: &CountedKinds) -> Result<Vec<Row>, AllocError>
    ensures { (ids : IdSize) (facts : List FactValue) → AllFit ids facts → IsTally ids facts tally.now
        → IfOk result (λ rows. IsHistogram ids facts rows.items) }
{
    let mut rows = rows_of(alloc, tally)?;
    sort_rows(&mut rows);
    Ok(rows)
}

/// Returns the class histogram of objects: the number of objects of each kind, and the number of their bytes. The heap has all other facts.
///
/// Instances and object arrays are counted by class, primitive arrays by type. Class dumps are not counted. The bytes are those of the
/// fields of an instance, and of the elements of an array. If the counts are known, the objects are not gone through.
///
/// Rows are ordered by bytes, then by number of objects, both from the most down; then classes by identifier; then types by code.
///
/// # Errors
///
/// - `Sink`: memory ran out, or there are more objects than a number can count.
/// - `Lost`: the objects cannot be gone through.
pub fn histogram_over<O: Objects>(
    alloc: Global,
    heap: &Heap,
    objects: &O,
    known: Option<CountedKinds>,
) -> Result<Vec<Row>, PassFault<AllocError, O::Fault>>
    requires { IsSome known → O.agree objects.now (size_of heap.now) (facts_of heap.now) }
    ensures { Finds (MadeUpWith (O.make_up objects.now (size_of heap.now) (facts_of heap.now)) (size_of heap.now) known)
        (O.agree objects.now (size_of heap.now) (facts_of heap.now))
        (O.tells objects.now (size_of heap.now) (facts_of heap.now)) (λ all rows. IsHistogram (size_of heap.now) all rows.items) result }
{
    let tally = count_known(alloc, heap, objects, known)?;
    match rows_in_order(alloc, &tally) {
        Ok(rows) => Ok(rows),
        Err(fault) => Err(PassFault::Sink(fault)),
    }
}

/// Returns the class histogram of a heap with its objects in memory, as [`histogram_over`] does. If memory runs out, the answer is
/// `AllocError`.
pub fn histogram(alloc: Global, heap: &Heap) -> Result<Vec<Row>, AllocError>
    ensures { IfOk result (λ rows. IsHistogram (size_of heap.now) (facts_of heap.now) rows.items) }
{
    holds_of_heap(heap);
    match histogram_over(alloc, heap, &InHeap, None) {
        Ok(rows) => Ok(rows),
        Err(stop) => Err(stop.of_sink()),
    }
}
