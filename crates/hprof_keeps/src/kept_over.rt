//! What keeps an identifier alive, and what it keeps alive itself, by passes over objects.

ghost use Rattle.std.specs.Prelude.{◌≡◌, ◌≢◌, ◌↔◌, List, IfOk, IsTrue};
ghost use Rattle.hprof_items.specs.FactValue.{FactValue};
ghost use Rattle.hprof_edges.specs.Edges.{AnyEdge};
ghost use Rattle.hprof_heap.specs.HeapFacts.{facts_of, size_of};
ghost use Rattle.hprof_dominators.specs.Dominating.{IsReached};
ghost use Rattle.hprof_passes.specs.Finding.{Finds};
ghost use Rattle.hprof_reach.specs.Reaching.{IsDumped, IsStart, IsStepBy};
ghost use Rattle.hprof_retained.specs.CachedReferences.{AreCachedReferences};
ghost use Rattle.hprof_retained.specs.Retained.{IsHeld};
ghost use Rattle.hprof_retained.specs.Tree.{IsTreeOf};
ghost use Rattle.hprof_retained.specs.declared.retained.Retained.{Retained};
ghost use Rattle.hprof_keeps.specs.Kept.{HasPlaces, IsKept, IsKeptTree};

use crate::kept::{Kept, KeptTree, held_kept, is_dumped, roots_kept};
use crate::weakly::sum_in;
use hprof_heap::Heap;
use hprof_passes::{Objects, PassFault};
use hprof_retained::{CachedReferences, Retained, weakly_held_over};
use hprof_small::small_heap;
use hprof_weak::weak_fields_over;
use std::alloc::{AllocError, Global};

/// Returns whether an identifier has a class dump or an object dump, among the facts that objects make up with a heap.
///
/// # Errors
///
/// Those of `small_heap`.
fn is_dumped_over<O: Objects>(
    alloc: Global,
    heap: &Heap,
    objects: &O,
    id: u64,
) -> Result<bool, PassFault<AllocError, O::Fault>>
    ensures { Finds (O.make_up objects.now (size_of heap.now) (facts_of heap.now))
        (O.agree objects.now (size_of heap.now) (facts_of heap.now)) (O.tells objects.now (size_of heap.now) (facts_of heap.now))
        (λ all told. IsTrue told ↔ IsDumped all id) result }
{
    match small_heap(alloc, heap, objects, &[id]) {
        Ok(small) => Ok(is_dumped(&small, id)),
        Err(stop) => Err(stop),
    }
}

/// Returns whether references of any kind reach an identifier, among the facts that objects make up with a heap.
///
/// # Errors
///
/// Those of `reach_over`.
fn is_reached_over<O: Objects>(
    alloc: Global,
    heap: &Heap,
    objects: &O,
    references: &mut CachedReferences,
    id: u64,
) -> Result<bool, PassFault<AllocError, O::Fault>>
    requires references { AreCachedReferences (O.make_up objects.now (size_of heap.now) (facts_of heap.now))
        (O.agree objects.now (size_of heap.now) (facts_of heap.now)) (size_of heap.now) references.old }
    ensures told { Finds (O.make_up objects.now (size_of heap.now) (facts_of heap.now))
        (O.agree objects.now (size_of heap.now) (facts_of heap.now)) (O.tells objects.now (size_of heap.now) (facts_of heap.now))
        (λ all told. IsTrue told ↔ IsReached (IsStart all) (IsStepBy AnyEdge (size_of heap.now) all) id) result }
    ensures references { AreCachedReferences (O.make_up objects.now (size_of heap.now) (facts_of heap.now))
        (O.agree objects.now (size_of heap.now) (facts_of heap.now)) (size_of heap.now) references.new }
{
    let reach = references.take_all(alloc, heap, objects)?;
    let is_reached = reach.is_reached(id);
    references.keep_all(reach);
    Ok(is_reached)
}

/// Returns what is told of an identifier other than 0 that strong references do not reach.
///
/// # Errors
///
/// Those of `small_heap` and `reach_over`.
fn otherwise_over<O: Objects>(
    alloc: Global,
    heap: &Heap,
    objects: &O,
    references: &mut CachedReferences,
    id: u64,
) -> Result<Kept, PassFault<AllocError, O::Fault>>
    requires references { AreCachedReferences (O.make_up objects.now (size_of heap.now) (facts_of heap.now))
        (O.agree objects.now (size_of heap.now) (facts_of heap.now)) (size_of heap.now) references.old }
    requires some { id ≢ 0 }
    requires not_held { (all : List FactValue) → O.make_up objects.now (size_of heap.now) (facts_of heap.now) all
        → ¬ (IsHeld (size_of heap.now) all id) }
    ensures kept { Finds (O.make_up objects.now (size_of heap.now) (facts_of heap.now))
        (O.agree objects.now (size_of heap.now) (facts_of heap.now)) (O.tells objects.now (size_of heap.now) (facts_of heap.now))
        (λ all kept. (retained : Retained) → IsKept (size_of heap.now) all retained id kept) result }
    ensures places { IfOk result (λ kept. (retained : Retained) → HasPlaces retained kept) }
    ensures references { AreCachedReferences (O.make_up objects.now (size_of heap.now) (facts_of heap.now))
        (O.agree objects.now (size_of heap.now) (facts_of heap.now)) (size_of heap.now) references.new }
{
    match is_dumped_over(alloc, heap, objects, id) {
        Ok(true) => {}
        Ok(false) => return Ok(Kept::Nothing),
        Err(stop) => return Err(stop),
    }
    match is_reached_over(alloc, heap, objects, references, id) {
        Ok(true) => Ok(Kept::Weakly),
        Ok(false) => Ok(Kept::Nowise),
        Err(stop) => Err(stop),
    }
}

/// Returns what is told of the roots together.
///
/// # Errors
///
/// Those of `weak_fields_over` and `weakly_held_over`.
fn roots_over<O: Objects>(
    alloc: Global,
    heap: &Heap,
    objects: &O,
    retained: &Retained,
) -> Result<Kept, PassFault<AllocError, O::Fault>>
    requires tree { (all : List FactValue) → O.make_up objects.now (size_of heap.now) (facts_of heap.now) all
        → IsTreeOf (size_of heap.now) all retained.now }
    ensures kept { Finds (O.make_up objects.now (size_of heap.now) (facts_of heap.now))
        (O.agree objects.now (size_of heap.now) (facts_of heap.now)) (O.tells objects.now (size_of heap.now) (facts_of heap.now))
        (λ all. IsKept (size_of heap.now) all retained.now 0) result }
    ensures places { IfOk result (HasPlaces retained.now) }
{
    let weak = weak_fields_over(alloc, heap, objects)?;
    let weakly = weakly_held_over(alloc, heap, objects, &weak, retained)?;
    match roots_kept(alloc, retained, sum_in(&weakly)) {
        Ok(kept) => Ok(kept),
        Err(fault) => Err(PassFault::Sink(fault)),
    }
}

/// Returns what is told of an identifier from a tree of dominators.
///
/// # Errors
///
/// Those of `weak_fields_over`, `weakly_held_over`, `small_heap` and `reach_over`.
fn kept_in<O: Objects>(
    alloc: Global,
    heap: &Heap,
    objects: &O,
    references: &mut CachedReferences,
    retained: &Retained,
    id: u64,
) -> Result<Kept, PassFault<AllocError, O::Fault>>
    requires references { AreCachedReferences (O.make_up objects.now (size_of heap.now) (facts_of heap.now))
        (O.agree objects.now (size_of heap.now) (facts_of heap.now)) (size_of heap.now) references.old }
    requires agree { O.agree objects.now (size_of heap.now) (facts_of heap.now) }
    requires tree { (all : List FactValue) → O.make_up objects.now (size_of heap.now) (facts_of heap.now) all
        → IsTreeOf (size_of heap.now) all retained.now }
    ensures kept { Finds (O.make_up objects.now (size_of heap.now) (facts_of heap.now))
        (O.agree objects.now (size_of heap.now) (facts_of heap.now)) (O.tells objects.now (size_of heap.now) (facts_of heap.now))
        (λ all. IsKept (size_of heap.now) all retained.now id) result }
    ensures places { IfOk result (HasPlaces retained.now) }
    ensures references { AreCachedReferences (O.make_up objects.now (size_of heap.now) (facts_of heap.now))
        (O.agree objects.now (size_of heap.now) (facts_of heap.now)) (size_of heap.now) references.new }
{
    if id == 0 {
        return roots_over(alloc, heap, objects, retained);
    }
    let place = retained.place(id);
    if place == 0 {
        return otherwise_over(alloc, heap, objects, references, id);
    }
    match held_kept(alloc, retained, place) {
        Ok(kept) => Ok(kept),
        Err(fault) => Err(PassFault::Sink(fault)),
    }
}

/// Returns the tree of dominators of the strong references that objects make up with a heap, and what is told of an identifier from it. The
/// heap has all facts but the objects.
///
/// # Errors
///
/// Those of `take_retained`, `weak_fields_over`, `weakly_held_over`, `small_heap` and `reach_over`.
pub(crate) fn kept_tree<O: Objects>(
    alloc: Global,
    heap: &Heap,
    objects: &O,
    references: &mut CachedReferences,
    id: u64,
) -> Result<KeptTree, PassFault<AllocError, O::Fault>>
    requires references { AreCachedReferences (O.make_up objects.now (size_of heap.now) (facts_of heap.now))
        (O.agree objects.now (size_of heap.now) (facts_of heap.now)) (size_of heap.now) references.old }
    ensures made { Finds (O.make_up objects.now (size_of heap.now) (facts_of heap.now))
        (O.agree objects.now (size_of heap.now) (facts_of heap.now)) (O.tells objects.now (size_of heap.now) (facts_of heap.now))
        (λ all. IsKeptTree (size_of heap.now) all id) result }
    ensures places { IfOk result (λ made. HasPlaces made.retained made.kept) }
    ensures references { AreCachedReferences (O.make_up objects.now (size_of heap.now) (facts_of heap.now))
        (O.agree objects.now (size_of heap.now) (facts_of heap.now)) (size_of heap.now) references.new }
{
    let retained = references.take_retained(alloc, heap, objects)?;
    match kept_in(alloc, heap, objects, references, &retained, id) {
        Ok(kept) => Ok(KeptTree { retained, kept }),
        Err(stop) => Err(stop),
    }
}
