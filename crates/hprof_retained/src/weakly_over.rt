//! What only weak references reach, by passes over objects.

ghost use Rattle.std.specs.Prelude.{◌≡◌, ◌↔◌, ℕ, Contains, IfOk, List};
ghost use Rattle.std.specs.List.Sorted.{IsStrictlyIncreasing};
ghost use Rattle.hprof_items.specs.FactValue.{FactValue};
ghost use Rattle.hprof_edges.specs.LeftOut.{IsLeftOut, fields_in};
ghost use Rattle.hprof_edges.specs.Edges.{IsEdge};
ghost use Rattle.hprof_edges.specs.declared.edge.Edge.{Edge};
ghost use Rattle.hprof_heap.specs.HeapFacts.{facts_of, size_of};
ghost use Rattle.hprof_passes.specs.Finding.{Finds};
ghost use Rattle.hprof_weak.specs.Weak.{IsWeak};
ghost use Rattle.hprof_retained.specs.Tree.{IsTreeOf};
ghost use Rattle.hprof_retained.specs.Weakly.{AreWeaklyHeld, IsWeaklyHeld};

use crate::beyond::{numbered_around, reached_outside};
use crate::border_sink::border_over;
use crate::retained::Retained;
use crate::weakly::WeaklyHeld;
use crate::weakly_sink::WeaklySink;
use hprof_edges::LeftOut;
use hprof_heap::{Heap, holds_of_heap};
use hprof_passes::{InHeap, Objects, PassFault};
use hprof_reach::edges_over;
use std::alloc::{AllocError, Global};

/// Returns the nodes that objects make up with a heap and that only weak references reach, sorted.
///
/// # Errors
///
/// - `Sink`: memory ran out.
/// - `Lost`: the objects cannot be gone through.
fn weak_nodes_over<O: Objects>(
    alloc: Global,
    heap: &Heap,
    objects: &O,
    weak: &LeftOut,
    retained: &Retained,
) -> Result<Vec<u64>, PassFault<AllocError, O::Fault>>
    requires weak { (all : List FactValue) → O.make_up objects.now (size_of heap.now) (facts_of heap.now) all → (edge : Edge)
        → IsEdge (size_of heap.now) all edge → IsLeftOut (fields_in weak.now) all edge ↔ IsWeak all edge }
    requires tree { (all : List FactValue) → O.make_up objects.now (size_of heap.now) (facts_of heap.now) all
        → IsTreeOf (size_of heap.now) all retained.now }
    ensures ascend { IfOk result (λ nodes. IsStrictlyIncreasing nodes.items) }
    ensures held { Finds (O.make_up objects.now (size_of heap.now) (facts_of heap.now))
        (O.agree objects.now (size_of heap.now) (facts_of heap.now)) (O.tells objects.now (size_of heap.now) (facts_of heap.now))
        (λ all nodes. (node : ℕ) → Contains nodes.items node ↔ IsWeaklyHeld (size_of heap.now) all node) result }
{
    let border = match border_over(alloc, heap, objects, weak, retained) {
        Ok(border) => border,
        Err(stop) => return Err(stop),
    };
    let numbered = match numbered_around(alloc, &border) {
        Ok(numbered) => numbered,
        Err(fault) => return Err(PassFault::Sink(fault)),
    };
    let none = LeftOut::none(alloc);
    let (nodes, edges) = match edges_over(alloc, heap, objects, &none, numbered) {
        Ok(made) => made,
        Err(stop) => return Err(stop),
    };
    match reached_outside(alloc, &border, nodes, edges) {
        Ok(reached) => Ok(reached),
        Err(fault) => Err(PassFault::Sink(fault)),
    }
}

/// Returns the classes and objects that only weak references reach, of those that objects make up with a heap. `weak` are their weak
/// fields, and `retained` is the tree of dominators by strong references. The heap has all facts but objects.
///
/// The search begins at the objects inside the tree that may have weak references, and leads on outside of it. The objects are gone
/// through twice, and those that are found are picked for their bytes.
///
/// # Errors
///
/// - `Sink`: memory ran out.
/// - `Lost`: the objects cannot be gone through.
pub fn weakly_held_over<O: Objects>(
    alloc: Global,
    heap: &Heap,
    objects: &O,
    weak: &LeftOut,
    retained: &Retained,
) -> Result<WeaklyHeld, PassFault<AllocError, O::Fault>>
    requires weak { (all : List FactValue) → O.make_up objects.now (size_of heap.now) (facts_of heap.now) all → (edge : Edge)
        → IsEdge (size_of heap.now) all edge → IsLeftOut (fields_in weak.now) all edge ↔ IsWeak all edge }
    requires tree { (all : List FactValue) → O.make_up objects.now (size_of heap.now) (facts_of heap.now) all
        → IsTreeOf (size_of heap.now) all retained.now }
    ensures held { Finds (O.make_up objects.now (size_of heap.now) (facts_of heap.now))
        (O.agree objects.now (size_of heap.now) (facts_of heap.now))
        (O.tells objects.now (size_of heap.now) (facts_of heap.now)) (λ all. AreWeaklyHeld (size_of heap.now) all) result }
{
    let nodes = match weak_nodes_over(alloc, heap, objects, weak, retained) {
        Ok(nodes) => nodes,
        Err(stop) => return Err(stop),
    };
    let mut sink = WeaklySink::new(alloc);
    match objects.pick(alloc, heap, &nodes, &mut sink) {
        Ok(()) => Ok(WeaklyHeld {
            nodes,
            bytes: sink.bytes,
        }),
        Err(stop) => Err(stop),
    }
}

/// Returns the classes and objects of a heap with its objects in memory that only weak references reach, as [`weakly_held_over`] does.
/// `weak` are the heap's weak fields, and `retained` is the tree of dominators by strong references. If memory runs out, the answer is
/// `AllocError`.
pub fn weakly_held(
    alloc: Global,
    heap: &Heap,
    weak: &LeftOut,
    retained: &Retained,
) -> Result<WeaklyHeld, AllocError>
    requires weak { (edge : Edge) → IsEdge (size_of heap.now) (facts_of heap.now) edge
        → IsLeftOut (fields_in weak.now) (facts_of heap.now) edge ↔ IsWeak (facts_of heap.now) edge }
    requires retained { IsTreeOf (size_of heap.now) (facts_of heap.now) retained.now }
    ensures { IfOk result (AreWeaklyHeld (size_of heap.now) (facts_of heap.now)) }
{
    holds_of_heap(heap);
    match weakly_held_over(alloc, heap, &InHeap, weak, retained) {
        Ok(weakly) => Ok(weakly),
        Err(stop) => Err(stop.of_sink()),
    }
}
