//! All that the report is written from but the words for nodes, by passes over objects.

ghost use Rattle.std.specs.Prelude.{List, All, IfOk};
ghost use Rattle.hprof_items.specs.FactValue.{FactValue};
ghost use Rattle.hprof_heap.specs.HeapFacts.{facts_of, size_of};
ghost use Rattle.hprof_passes.specs.Finding.{Finds};
ghost use Rattle.hprof_retained.specs.CachedReferences.{AreCachedReferences};
ghost use Rattle.hprof_retained.specs.Retained.{IsSumOver};
ghost use Rattle.hprof_retained.specs.Tree.{IsTreeOf};
ghost use Rattle.hprof_retained.specs.Weakly.{IsWeaklyHeld};
ghost use Rattle.hprof_keeps.specs.WeakSum.{sum_of};
ghost use Rattle.hprof_suspects.specs.Told.{AreTold, Fits};
ghost use Rattle.hprof_suspects.specs.ToldHeaps.{AreFoundOut};

use crate::alone_over::alone_over;
use crate::told::{Told, all_told};
use hprof_by_label::{NodeLabels, labels_over};
use hprof_heap::Heap;
use hprof_keeps::{WeakSum, sum_in};
use hprof_naming::ClassNames;
use hprof_passes::{Objects, PassFault};
use hprof_retained::{CachedReferences, Retained, weakly_held_over};
use hprof_weak::weak_fields_over;
use std::alloc::{AllocError, Global};

/// All that the report is written from but the words for nodes.
#[derive(Drop)]
pub(crate) struct FoundOut {
    /// The tree of dominators.
    pub(crate) retained: Retained,
    /// The labels of its nodes.
    pub(crate) labels: NodeLabels,
    /// The nodes that only weak references reach.
    pub(crate) weakly: WeakSum,
    /// The suspects.
    pub(crate) told: Vec<Told>,
}

/// Adds up the nodes that objects make up with a heap and that only weak references reach.
///
/// # Errors
///
/// Those of `weak_fields_over` and `weakly_held_over`.
fn weak_sum_over<O: Objects>(
    alloc: Global,
    heap: &Heap,
    objects: &O,
    retained: &Retained,
) -> Result<WeakSum, PassFault<AllocError, O::Fault>>
    requires tree { (all : List FactValue) → O.make_up objects.now (size_of heap.now) (facts_of heap.now) all
        → IsTreeOf (size_of heap.now) all retained.now }
    ensures sum { Finds (O.make_up objects.now (size_of heap.now) (facts_of heap.now))
        (O.agree objects.now (size_of heap.now) (facts_of heap.now)) (O.tells objects.now (size_of heap.now) (facts_of heap.now))
        (λ all sum. IsSumOver (size_of heap.now) all (IsWeaklyHeld (size_of heap.now) all) (sum_of sum)) result }
{
    let weak = match weak_fields_over(alloc, heap, objects) {
        Ok(weak) => weak,
        Err(stop) => return Err(stop),
    };
    match weakly_held_over(alloc, heap, objects, &weak, retained) {
        Ok(weakly) => Ok(sum_in(&weakly)),
        Err(stop) => Err(stop),
    }
}

/// The suspects of a tree, and the labels that they are told with.
#[derive(Drop)]
struct LabelledTold {
    labels: NodeLabels,
    told: Vec<Told>,
}

/// Returns the suspects of a tree that objects make up with a heap, with all that is told of them, and the labels of the tree's nodes.
fn told_over<O: Objects>(
    alloc: Global,
    heap: &Heap,
    objects: &O,
    retained: &Retained,
) -> Result<LabelledTold, PassFault<AllocError, O::Fault>>
    requires { (all : List FactValue) → O.make_up objects.now (size_of heap.now) (facts_of heap.now) all
        → IsTreeOf (size_of heap.now) all retained.now }
    ensures fit { IfOk result (λ made. All (Fits retained.now) made.told.items) }
    ensures told { Finds (O.make_up objects.now (size_of heap.now) (facts_of heap.now))
        (O.agree objects.now (size_of heap.now) (facts_of heap.now)) (O.tells objects.now (size_of heap.now) (facts_of heap.now))
        (λ all made. AreTold (size_of heap.now) all retained.now made.labels made.told.items) result }
{
    let Ok(names) = ClassNames::of(alloc, heap) else {
        return Err(PassFault::Sink(AllocError));
    };
    let labels = labels_over(alloc, heap, objects, &names, retained)?;
    let alone = alone_over(alloc, heap, objects, retained, &labels)?;
    match all_told(alloc, retained, &labels, &alone) {
        Ok(told) => Ok(LabelledTold { labels, told }),
        Err(fault) => Err(PassFault::Sink(fault)),
    }
}

/// Returns all that the report on the facts that objects make up with a heap is written from but the words for nodes. The heap has all
/// facts but objects.
///
/// # Errors
///
/// Those of `take_retained`, `weak_fields_over`, `weakly_held_over`, `labels_over` and `small_heap`.
pub(crate) fn found_out_over<O: Objects>(
    alloc: Global,
    heap: &Heap,
    objects: &O,
    references: &mut CachedReferences,
) -> Result<FoundOut, PassFault<AllocError, O::Fault>>
    requires references { AreCachedReferences (O.make_up objects.now (size_of heap.now) (facts_of heap.now))
        (O.agree objects.now (size_of heap.now) (facts_of heap.now)) (size_of heap.now) references.old }
    ensures fit { IfOk result (λ found. All (Fits found.retained) found.told.items) }
    ensures found { Finds (O.make_up objects.now (size_of heap.now) (facts_of heap.now))
        (O.agree objects.now (size_of heap.now) (facts_of heap.now)) (O.tells objects.now (size_of heap.now) (facts_of heap.now))
        (λ all. AreFoundOut (size_of heap.now) all) result }
    ensures references { AreCachedReferences (O.make_up objects.now (size_of heap.now) (facts_of heap.now))
        (O.agree objects.now (size_of heap.now) (facts_of heap.now)) (size_of heap.now) references.new }
{
    let retained = references.take_retained(alloc, heap, objects)?;
    let weakly = weak_sum_over(alloc, heap, objects, &retained)?;
    match told_over(alloc, heap, objects, &retained) {
        Ok(LabelledTold { labels, told }) => Ok(FoundOut {
            retained,
            labels,
            weakly,
            told,
        }),
        Err(stop) => Err(stop),
    }
}
