//! How an identifier is reached.

ghost use Rattle.std.specs.Prelude.{◌↔◌, IfOk, IfSome};
ghost use Rattle.hprof_edges.specs.declared.edge.Edge.{Edge};
ghost use Rattle.hprof_edges.specs.Edges.{IsEdge};
ghost use Rattle.hprof_edges.specs.LeftOut.{IsKept, IsLeftOut, fields_in};
ghost use Rattle.hprof_heap.specs.HeapFacts.{facts_of, size_of};
ghost use Rattle.hprof_passes.specs.Finding.{Finds};
ghost use Rattle.hprof_reach.specs.Reaching.{IsReach, IsReachBy};
ghost use Rattle.hprof_retained.specs.CachedReferences.{AreCachedReferences};
ghost use Rattle.hprof_weak.specs.Weak.{IsWeak};
ghost use Rattle.hprof_why.specs.Paths.{IsReached, IsWithoutStrong};

use crate::path::{Path, path_by_all, path_to};
use hprof_edges::LeftOut;
use hprof_heap::Heap;
use hprof_passes::{Objects, PassFault};
use hprof_reach::Reach;
use hprof_retained::CachedReferences;
use std::alloc::{AllocError, Global};

/// How an identifier is reached from GC roots.
#[derive(Drop)]
pub(crate) enum Reached {
    /// By strong edges, along this path.
    Strongly(Path),
    /// By weak edges alone, along this path.
    Weakly(Path),
    /// By no edges.
    Nowise,
}

/// Returns how an identifier of a heap with its objects in memory is reached, where no strong edges lead to it. `all` is the search by all
/// edges; it is made, and kept there, if it is not there yet. If memory runs out, the answer is `AllocError`.
fn reached_without_strong(
    alloc: Global,
    heap: &Heap,
    all: &mut Option<Reach>,
    id: u64,
) -> Result<Reached, AllocError>
    requires { IfSome all.old (IsReach (size_of heap.now) (facts_of heap.now)) }
    ensures reached { IfOk result (IsWithoutStrong (size_of heap.now) (facts_of heap.now) id) }
    ensures all { IfSome all.new (IsReach (size_of heap.now) (facts_of heap.now)) }
{
    let weakly = path_by_all(alloc, heap, all, id)?;
    match weakly {
        Some(path) => Ok(Reached::Weakly(path)),
        None => Ok(Reached::Nowise),
    }
}

/// Returns how an identifier of a heap with its objects in memory is reached. `strong` is the search without the weak fields, which are in
/// `weak`. `all` is the search by all edges; it is made, and kept there, if it is wanted and not there yet. If memory runs out, the answer
/// is `AllocError`.
pub(crate) fn reached_of(
    alloc: Global,
    heap: &Heap,
    weak: &LeftOut,
    strong: &Reach,
    all: &mut Option<Reach>,
    id: u64,
) -> Result<Reached, AllocError>
    requires weak { (edge : Edge) → IsEdge (size_of heap.now) (facts_of heap.now) edge
        → IsLeftOut (fields_in weak.now) (facts_of heap.now) edge ↔ IsWeak (facts_of heap.now) edge }
    requires strong { IsReachBy (IsKept (fields_in weak.now) (facts_of heap.now)) (size_of heap.now) (facts_of heap.now) strong.now }
    requires all { IfSome all.old (IsReach (size_of heap.now) (facts_of heap.now)) }
    ensures reached { IfOk result (IsReached (size_of heap.now) (facts_of heap.now) id) }
    ensures all { IfSome all.new (IsReach (size_of heap.now) (facts_of heap.now)) }
{
    let strongly = path_to(alloc, strong, id)?;
    match strongly {
        Some(path) => Ok(Reached::Strongly(path)),
        None => reached_without_strong(alloc, heap, all, id),
    }
}

/// Returns how an identifier is reached by the edges that objects make up with a heap, where no strong ones lead to it.
///
/// # Errors
///
/// Those of `reach_over`.
fn reached_without_strong_over<O: Objects>(
    alloc: Global,
    heap: &Heap,
    objects: &O,
    references: &mut CachedReferences,
    id: u64,
) -> Result<Reached, PassFault<AllocError, O::Fault>>
    requires references { AreCachedReferences (O.make_up objects.now (size_of heap.now) (facts_of heap.now))
        (O.agree objects.now (size_of heap.now) (facts_of heap.now)) (size_of heap.now) references.old }
    ensures reached { Finds (O.make_up objects.now (size_of heap.now) (facts_of heap.now))
        (O.agree objects.now (size_of heap.now) (facts_of heap.now)) (O.tells objects.now (size_of heap.now) (facts_of heap.now))
        (λ all. IsWithoutStrong (size_of heap.now) all id) result }
    ensures references { AreCachedReferences (O.make_up objects.now (size_of heap.now) (facts_of heap.now))
        (O.agree objects.now (size_of heap.now) (facts_of heap.now)) (size_of heap.now) references.new }
{
    let all = references.take_all(alloc, heap, objects)?;
    let path = path_to(alloc, &all, id);
    references.keep_all(all);
    match path {
        Ok(Some(path)) => Ok(Reached::Weakly(path)),
        Ok(None) => Ok(Reached::Nowise),
        Err(fault) => Err(PassFault::Sink(fault)),
    }
}

/// Returns how an identifier is reached by the edges that objects make up with a heap. The heap has all facts but the objects, which are
/// gone through two to five times if no search is kept.
///
/// # Errors
///
/// Those of `weak_fields_over` and `reach_over`.
pub(crate) fn reached_over<O: Objects>(
    alloc: Global,
    heap: &Heap,
    objects: &O,
    references: &mut CachedReferences,
    id: u64,
) -> Result<Reached, PassFault<AllocError, O::Fault>>
    requires references { AreCachedReferences (O.make_up objects.now (size_of heap.now) (facts_of heap.now))
        (O.agree objects.now (size_of heap.now) (facts_of heap.now)) (size_of heap.now) references.old }
    ensures reached { Finds (O.make_up objects.now (size_of heap.now) (facts_of heap.now))
        (O.agree objects.now (size_of heap.now) (facts_of heap.now)) (O.tells objects.now (size_of heap.now) (facts_of heap.now))
        (λ all. IsReached (size_of heap.now) all id) result }
    ensures references { AreCachedReferences (O.make_up objects.now (size_of heap.now) (facts_of heap.now))
        (O.agree objects.now (size_of heap.now) (facts_of heap.now)) (size_of heap.now) references.new }
{
    let strong = references.take_strong(alloc, heap, objects)?;
    let path = path_to(alloc, &strong, id);
    references.keep_strong(strong);
    match path {
        Ok(Some(path)) => Ok(Reached::Strongly(path)),
        Ok(None) => reached_without_strong_over(alloc, heap, objects, references, id),
        Err(fault) => Err(PassFault::Sink(fault)),
    }
}
