//! The heap of the objects that the words for a few of them are read from.

ghost use Rattle.std.specs.Prelude.{List};
ghost use Rattle.std.specs.List.Sorted.{IsStrictlyIncreasing};
ghost use Rattle.hprof_items.specs.FactValue.{FactValue};
ghost use Rattle.hprof_heap.specs.Heap.{heap_of};
ghost use Rattle.hprof_heap.specs.HeapFacts.{facts_of, size_of};
ghost use Rattle.hprof_passes.specs.Finding.{Finds};
ghost use Rattle.hprof_words.specs.Few.{IsFew};
ghost use Rattle.hprof_words.specs.Words.{IsWordsHeap};

use crate::few::{Few, few_next, few_of};
use hprof_heap::Heap;
use hprof_passes::{Objects, PassFault};
use std::alloc::{AllocError, Global};

/// Returns the heap of all objects that the words for those of `few` are read from. Picks the arrays of texts and the names of
/// threads, and then the arrays of these names. What would give the same objects is left out.
///
/// # Errors
///
/// Those of `small_heap`.
pub fn words_of_few<O: Objects>(
    alloc: Global,
    heap: &Heap,
    objects: &O,
    few: Few,
) -> Result<Heap, PassFault<AllocError, O::Fault>>
    requires agree { O.agree objects.now (size_of heap.now) (facts_of heap.now) }
    requires few { (all : List FactValue) → O.make_up objects.now (size_of heap.now) (facts_of heap.now) all
        → IsFew (heap_of heap.now).millis (size_of heap.now) all few }
    ensures { Finds (O.make_up objects.now (size_of heap.now) (facts_of heap.now))
        (O.agree objects.now (size_of heap.now) (facts_of heap.now)) (O.tells objects.now (size_of heap.now) (facts_of heap.now))
        (λ all. IsWordsHeap (heap_of heap.now).millis (size_of heap.now) few.wanted.items all) result }
{
    let named = match few_next(alloc, heap, objects, few) {
        Ok(named) => named,
        Err(stop) => return Err(stop),
    };
    match few_next(alloc, heap, objects, named) {
        Ok(words) => Ok(words.heap),
        Err(stop) => Err(stop),
    }
}

/// Returns the heap of all objects that the words for those with these identifiers are read from. The identifiers ascend strictly. The heap
/// has the size, the time and all other facts of `heap`.
///
/// Picks the objects that are wanted; then the arrays of their texts, and the names of those that are objects of threads; and then the
/// arrays of these names. What would give the same objects is left out.
///
/// # Errors
///
/// Those of `small_heap`.
pub fn words_heap<O: Objects>(
    alloc: Global,
    heap: &Heap,
    objects: &O,
    wanted: Vec<u64>,
) -> Result<Heap, PassFault<AllocError, O::Fault>>
    requires { IsStrictlyIncreasing wanted.items }
    ensures { Finds (O.make_up objects.now (size_of heap.now) (facts_of heap.now))
        (O.agree objects.now (size_of heap.now) (facts_of heap.now)) (O.tells objects.now (size_of heap.now) (facts_of heap.now))
        (λ all. IsWordsHeap (heap_of heap.now).millis (size_of heap.now) wanted.items all) result }
{
    match few_of(alloc, heap, objects, wanted) {
        Ok(few) => words_of_few(alloc, heap, objects, few),
        Err(stop) => Err(stop),
    }
}
