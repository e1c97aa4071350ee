//! The classes that a word means.

ghost use Rattle.std.specs.Prelude.{ℕ, IfOk, List};
ghost use Rattle.std.specs.List.Sorted.{IsStrictlyIncreasing};
ghost use Rattle.hprof_heap.specs.HeapFacts.{facts_of, size_of};
ghost use Rattle.hprof_passes.specs.Finding.{Finds};
ghost use Rattle.hprof_naming.specs.ClassNames.{AreClassNames};
ghost use Rattle.hprof_naming.specs.MeantLabel.{IsMeantBy};
ghost use Rattle.hprof_meaning.specs.MeantClasses.{AreMeantClasses, AreMeantDumps};

use crate::gathering::{all_classes, dumped_classes};
use crate::judging::meant_among;
use hprof_heap::{Heap, holds_of_heap};
use hprof_naming::{ClassNames, MeantLabel};
use hprof_passes::{InHeap, Objects, PassFault};
use std::alloc::{AllocError, Global};

/// Returns the identifiers of all classes with the label that is meant, ascending, each once. The heap has all facts but the objects.
///
/// A class is an identifier that has a class dump, that a load gives a name, or that an instance or an array of objects has as its class.
/// Its label is the printed form of its name, or `\?` if it has none. `names` are the names of the heap's classes.
///
/// # Errors
///
/// - `Sink`: memory ran out.
/// - `Lost`: the objects cannot be gone through.
pub fn classes_meant_over<O: Objects>(
    alloc: Global,
    heap: &Heap,
    objects: &O,
    names: &ClassNames,
    meant: &MeantLabel<'_>,
) -> Result<Vec<u64>, PassFault<AllocError, O::Fault>>
    requires { AreClassNames (facts_of heap.now) names.now }
    ensures meant { (word : List ℕ) → IsMeantBy word meant.now
        → Finds (O.make_up objects.now (size_of heap.now) (facts_of heap.now)) (O.agree objects.now (size_of heap.now) (facts_of heap.now))
        (O.tells objects.now (size_of heap.now) (facts_of heap.now)) (λ all classes. AreMeantClasses all word classes.items) result }
    ensures ascend { (word : List ℕ) → IsMeantBy word meant.now → IfOk result (λ classes. IsStrictlyIncreasing classes.items) }
{
    holds_of_heap(heap);
    let classes = all_classes(alloc, heap, objects)?;
    match meant_among(alloc, heap, names, meant, &classes) {
        Ok(found) => Ok(found),
        Err(fault) => Err(PassFault::Sink(fault)),
    }
}

/// Returns the same of a heap with its objects in memory. If memory runs out, the answer is `AllocError`.
pub fn classes_meant(
    alloc: Global,
    heap: &Heap,
    names: &ClassNames,
    meant: &MeantLabel<'_>,
) -> Result<Vec<u64>, AllocError>
    requires { AreClassNames (facts_of heap.now) names.now }
    ensures { (word : List ℕ) → IsMeantBy word meant.now
        → IfOk result (λ classes. AreMeantClasses (facts_of heap.now) word classes.items) }
{
    holds_of_heap(heap);
    match classes_meant_over(alloc, heap, &InHeap, names, meant) {
        Ok(classes) => Ok(classes),
        Err(stop) => Err(stop.of_sink()),
    }
}

/// Returns the identifiers of all class dumps with the label that is meant, ascending, each once.
///
/// `names` are the names of the heap's classes. If memory runs out, the answer is `AllocError`.
pub fn class_dumps_meant(
    alloc: Global,
    heap: &Heap,
    names: &ClassNames,
    meant: &MeantLabel<'_>,
) -> Result<Vec<u64>, AllocError>
    requires { AreClassNames (facts_of heap.now) names.now }
    ensures { (word : List ℕ) → IsMeantBy word meant.now
        → IfOk result (λ classes. AreMeantDumps (facts_of heap.now) word classes.items) }
{
    holds_of_heap(heap);
    let classes = dumped_classes(alloc, heap)?;
    meant_among(alloc, heap, names, meant, &classes)
}
