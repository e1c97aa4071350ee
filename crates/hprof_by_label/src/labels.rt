//! The labels of the nodes of a tree of dominators.

ghost use Rattle.std.specs.Prelude.{◌≡◌, IfOk};
ghost use Rattle.hprof_heap.specs.HeapFacts.{facts_of, size_of};
ghost use Rattle.hprof_naming.specs.ClassNames.{AreClassNames};
ghost use Rattle.hprof_passes.specs.Finding.{Finds};
ghost use Rattle.hprof_retained.specs.Tree.{count_of};
ghost use Rattle.hprof_by_label.specs.Labels.{AreNodeLabels, HaveSizes, place_count};

use crate::label_sink::LabelSink;
use crate::node_labels::NodeLabels;
use hprof_heap::{Heap, holds_of_heap};
use hprof_naming::ClassNames;
use hprof_passes::{InHeap, Objects, PassFault};
use hprof_retained::Retained;
use std::alloc::{AllocError, Global};

/// Returns the labels and the sizes of the nodes of a tree that objects make up with a heap. The heap has all facts but objects, which are
/// gone through once.
///
/// Nodes with the same label have the same number: those of two classes with one label, and arrays of a type and instances of a class whose
/// label reads the same.
///
/// # Errors
///
/// - `Sink`: memory ran out, or there are more than 2^32 labels.
/// - `Lost`: the objects cannot be gone through.
pub fn labels_over<O: Objects>(
    alloc: Global,
    heap: &Heap,
    objects: &O,
    names: &ClassNames,
    retained: &Retained,
) -> Result<NodeLabels, PassFault<AllocError, O::Fault>>
    requires { AreClassNames (facts_of heap.now) names.now }
    ensures as_many { IfOk result (λ labels. place_count labels ≡ count_of retained.now) }
    ensures labels { Finds (O.make_up objects.now (size_of heap.now) (facts_of heap.now))
        (O.agree objects.now (size_of heap.now) (facts_of heap.now))
        (O.tells objects.now (size_of heap.now) (facts_of heap.now))
        (λ all labels. AreNodeLabels all retained.now labels × HaveSizes (size_of heap.now) all retained.now labels) result }
{
    holds_of_heap(heap);
    let mut sink = match LabelSink::new(alloc, heap, names, retained) {
        Ok(sink) => sink,
        Err(fault) => return Err(PassFault::Sink(fault)),
    };
    match objects.pass(alloc, heap, &mut sink) {
        Ok(()) => {}
        Err(stop) => return Err(stop),
    }
    // What a pass does to its sink is said only of objects that make up a heap, so `finish` compares the number of places.
    match sink.finish(retained.len()) {
        Ok(labels) => Ok(labels),
        Err(fault) => Err(PassFault::Sink(fault)),
    }
}

/// Returns the labels and the sizes of the nodes of a tree of a heap with its objects in memory, as [`labels_over`] does. If memory runs
/// out, the answer is `AllocError`.
pub fn labels_of(
    alloc: Global,
    heap: &Heap,
    names: &ClassNames,
    retained: &Retained,
) -> Result<NodeLabels, AllocError>
    requires { AreClassNames (facts_of heap.now) names.now }
    ensures labels { IfOk result (AreNodeLabels (facts_of heap.now) retained.now) }
    ensures sizes { IfOk result (HaveSizes (size_of heap.now) (facts_of heap.now) retained.now) }
{
    holds_of_heap(heap);
    match labels_over(alloc, heap, &InHeap, names, retained) {
        Ok(labels) => Ok(labels),
        Err(stop) => Err(stop.of_sink()),
    }
}
