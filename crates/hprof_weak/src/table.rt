//! The table of weak fields.

ghost use Rattle.std.specs.Prelude.{◌↔◌, List, IfErr, IfOk};
ghost use Rattle.hprof_items.specs.FactValue.{FactValue};
ghost use Rattle.hprof_heap.specs.HeapFacts.{facts_of, size_of};
ghost use Rattle.hprof_edges.specs.declared.edge.Edge.{Edge};
ghost use Rattle.hprof_edges.specs.Edges.{IsEdge};
ghost use Rattle.hprof_edges.specs.LeftOut.{IsLeftOut, fields_in};
ghost use Rattle.hprof_passes.specs.Passing.{IfLost};
ghost use Rattle.hprof_weak.specs.Weak.{IsWeak};
ghost use Rattle.hprof_weak.specs.WeakClasses.{AreWeakClasses};

use crate::rows::rows_over;
use crate::strengths::strengths_of;
use crate::weak_classes::{WeakClasses, weak_classes};
use hprof_edges::LeftOut;
use hprof_heap::{Heap, holds_of_heap};
use hprof_naming::ClassNames;
use hprof_passes::{InHeap, Objects, PassFault};
use std::alloc::{AllocError, Global};

/// Returns the classes of a heap that have weak fields. If memory runs out, the answer is `AllocError`.
fn classes_of(alloc: Global, heap: &Heap) -> Result<WeakClasses, AllocError>
    ensures { IfOk result (AreWeakClasses (facts_of heap.now)) }
{
    holds_of_heap(heap);
    let names = ClassNames::of(alloc, heap)?;
    let strengths = strengths_of(alloc, heap, &names)?;
    weak_classes(alloc, strengths)
}

/// Returns the weak fields of a heap's classes: without the edges by them, the strong edges are left of the facts that objects make up with
/// the heap. The heap has all facts but objects.
///
/// A field that no instance has values for may be missing, since it gives no edge. The objects are gone through only if there are many weak
/// fields.
///
/// # Errors
///
/// - `Sink`: memory ran out.
/// - `Lost`: the objects cannot be gone through.
pub fn weak_fields_over<O: Objects>(
    alloc: Global,
    heap: &Heap,
    objects: &O,
) -> Result<LeftOut, PassFault<AllocError, O::Fault>>
    ensures weak { IfOk result (λ left_out. (all : List FactValue)
        → O.make_up objects.now (size_of heap.now) (facts_of heap.now) all → (edge : Edge) → IsEdge (size_of heap.now) all edge
        → IsLeftOut (fields_in left_out) all edge ↔ IsWeak all edge) }
    ensures tells { IfErr result (IfLost (O.tells objects.now (size_of heap.now) (facts_of heap.now))) }
{
    let classes = classes_of(alloc, heap).map_err(|fault| PassFault::Sink(fault))?;
    match rows_over(alloc, heap, objects, classes) {
        Ok(fields) => Ok(LeftOut::new(fields)),
        Err(stop) => Err(stop),
    }
}

/// Returns the weak fields of the classes of a heap with its objects in memory, as [`weak_fields_over`] does. If memory runs out, the
/// answer is `AllocError`.
pub fn weak_fields(alloc: Global, heap: &Heap) -> Result<LeftOut, AllocError>
    ensures { IfOk result (λ left_out. (edge : Edge) → IsEdge (size_of heap.now) (facts_of heap.now) edge
        → IsLeftOut (fields_in left_out) (facts_of heap.now) edge ↔ IsWeak (facts_of heap.now) edge) }
{
    holds_of_heap(heap);
    match weak_fields_over(alloc, heap, &InHeap) {
        Ok(fields) => Ok(fields),
        Err(stop) => Err(stop.of_sink()),
    }
}
