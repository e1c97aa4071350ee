//! A heap of a few objects.

ghost use Rattle.std.specs.Prelude.{◌≡◌, List};
ghost use Rattle.std.specs.List.Sorted.{IsStrictlyIncreasing};
ghost use Rattle.hprof_items.specs.FactValue.{FactValue};
ghost use Rattle.hprof_heap.specs.Heap.{heap_of};
ghost use Rattle.hprof_heap.specs.HeapFacts.{facts_of, size_of};
ghost use Rattle.hprof_passes.specs.Finding.{Finds};
ghost use Rattle.hprof_words.specs.Few.{IsFew};
ghost use Rattle.hprof_words.specs.Words.{HasNextOf};

use crate::needed::needed_for;
use hprof_heap::Heap;
use hprof_passes::{Objects, PassFault};
use hprof_small::small_heap;
use std::alloc::{AllocError, Global};

/// A heap of a few objects, and their identifiers.
#[derive(Drop)]
pub struct Few {
    /// The facts of another heap, and of its objects only a few.
    pub heap: Heap,
    /// The identifiers of these objects.
    pub wanted: Vec<u64>,
}

/// Returns the heap of the objects with these identifiers, which ascend strictly.
///
/// # Errors
///
/// Those of `small_heap`.
pub fn few_of<O: Objects>(
    alloc: Global,
    heap: &Heap,
    objects: &O,
    wanted: Vec<u64>,
) -> Result<Few, PassFault<AllocError, O::Fault>>
    requires { IsStrictlyIncreasing wanted.items }
    ensures { Finds (O.make_up objects.now (size_of heap.now) (facts_of heap.now))
        (O.agree objects.now (size_of heap.now) (facts_of heap.now)) (O.tells objects.now (size_of heap.now) (facts_of heap.now))
        (λ all few. IsFew (heap_of heap.now).millis (size_of heap.now) all few × (few.wanted.items ≡ wanted.items)) result }
{
    match small_heap(alloc, heap, objects, &wanted) {
        Ok(heap) => Ok(Few { heap, wanted }),
        Err(stop) => Err(stop),
    }
}

/// Returns the heap of the objects with these identifiers, which ascend strictly: `few` itself if it has just these, or else one from
/// another pass.
///
/// # Errors
///
/// Those of `small_heap`.
pub fn few_more<O: Objects>(
    alloc: Global,
    heap: &Heap,
    objects: &O,
    few: Few,
    wanted: Vec<u64>,
) -> Result<Few, PassFault<AllocError, O::Fault>>
    requires ascend { IsStrictlyIncreasing wanted.items }
    requires agree { O.agree objects.now (size_of heap.now) (facts_of heap.now) }
    requires few { (all : List FactValue) → O.make_up objects.now (size_of heap.now) (facts_of heap.now) all
        → IsFew (heap_of heap.now).millis (size_of heap.now) all few }
    ensures { Finds (O.make_up objects.now (size_of heap.now) (facts_of heap.now))
        (O.agree objects.now (size_of heap.now) (facts_of heap.now)) (O.tells objects.now (size_of heap.now) (facts_of heap.now))
        (λ all more. IsFew (heap_of heap.now).millis (size_of heap.now) all more × (more.wanted.items ≡ wanted.items)) result }
{
    if few.wanted == wanted {
        return Ok(few);
    }
    drop(few);
    few_of(alloc, heap, objects, wanted)
}

/// Returns the heap of these objects, of the arrays of their texts and of the objects that hold their names.
pub(crate) fn few_next<O: Objects>(
    alloc: Global,
    heap: &Heap,
    objects: &O,
    few: Few,
) -> Result<Few, PassFault<AllocError, O::Fault>>
    requires agree { O.agree objects.now (size_of heap.now) (facts_of heap.now) }
    requires few { (all : List FactValue) → O.make_up objects.now (size_of heap.now) (facts_of heap.now) all
        → IsFew (heap_of heap.now).millis (size_of heap.now) all few }
    ensures { Finds (O.make_up objects.now (size_of heap.now) (facts_of heap.now))
        (O.agree objects.now (size_of heap.now) (facts_of heap.now)) (O.tells objects.now (size_of heap.now) (facts_of heap.now))
        (λ all more. IsFew (heap_of heap.now).millis (size_of heap.now) all more
        × HasNextOf (size_of heap.now) all few.wanted.items more.wanted.items) result }
{
    match needed_for(alloc, &few.heap, &few.wanted) {
        Ok(needed) => few_more(alloc, heap, objects, few, needed),
        Err(fault) => Err(PassFault::Sink(fault)),
    }
}
