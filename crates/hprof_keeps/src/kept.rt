//! What keeps an identifier alive, and what it keeps alive itself, by places in the tree of dominators.

ghost use Rattle.std.specs.Prelude.{◌≡◌, ◌<◌, ◌↔◌, List, IfOk, IfSome, IsTrue};
ghost use Rattle.hprof_edges.specs.Edges.{IsEdge};
ghost use Rattle.hprof_edges.specs.LeftOut.{IsLeftOut, fields_in};
ghost use Rattle.hprof_edges.specs.declared.edge.Edge.{Edge};
ghost use Rattle.hprof_heap.specs.HeapFacts.{facts_of, size_of};
ghost use Rattle.hprof_items.specs.FactValue.{FactValue};
ghost use Rattle.hprof_reach.specs.Reaching.{IsDumped};
ghost use Rattle.hprof_retained.specs.Retained.{IsSumOver};
ghost use Rattle.hprof_retained.specs.Tree.{IsTreeOf, count_of, node_at};
ghost use Rattle.hprof_retained.specs.Weakly.{AreWeaklyHeld, IsWeaklyHeld};
ghost use Rattle.hprof_values.specs.declared.ids.IdSize.{IdSize};
ghost use Rattle.hprof_weak.specs.Weak.{IsWeak};
ghost use Rattle.hprof_keeps.specs.Kept.{HasPlaces, IsKept};
ghost use Rattle.hprof_keeps.specs.WeakSum.{sum_of};

use crate::children::children_of;
use crate::dominators::dominators_of;
use crate::weakly::{WeakSum, is_weakly_held, weak_sum};
use hprof_edges::LeftOut;
use hprof_heap::{Heap, find_class, find_object, holds_of_heap};
use hprof_retained::{Retained, WeaklyHeld};
use std::alloc::{AllocError, Global};

/// What the report `keeps` tells of an identifier.
#[derive(Drop)]
pub(crate) enum Kept {
    /// The identifier 0 stands for the roots together.
    Roots {
        /// What only weak references reach.
        weakly: WeakSum,
        /// The places of the nodes that no other dominates.
        below: Vec<usize>,
    },
    /// Strong references reach it.
    Held {
        /// The places of its dominators, from the outermost to itself.
        above: Vec<usize>,
        /// The places of the nodes right below it.
        below: Vec<usize>,
    },
    /// Only weak references reach it.
    Weakly,
    /// No references reach it.
    Nowise,
    /// It has no dump.
    Nothing,
}

/// A tree of dominators, and what is told of an identifier from it.
#[derive(Drop)]
pub(crate) struct KeptTree {
    pub(crate) retained: Retained,
    pub(crate) kept: Kept,
}

/// Returns what is told of the roots together. If memory runs out, the answer is `AllocError`.
pub(crate) fn roots_kept(
    alloc: Global,
    retained: &Retained,
    weakly: WeakSum,
) -> Result<Kept, AllocError>
    ensures kept { IfOk result (λ kept. (ids : IdSize) (facts : List FactValue) → IsTreeOf ids facts retained.now
        → IsSumOver ids facts (IsWeaklyHeld ids facts) (sum_of weakly) → IsKept ids facts retained.now 0 kept) }
    ensures places { IfOk result (HasPlaces retained.now) }
{
    let below = children_of(alloc, retained, 0)?;
    Ok(Kept::Roots { weakly, below })
}

/// Returns what is told of the node at a place. If memory runs out, the answer is `AllocError`.
pub(crate) fn held_kept(
    alloc: Global,
    retained: &Retained,
    place: usize,
) -> Result<Kept, AllocError>
    requires some { 0 < place }
    requires within { place < count_of retained.now }
    ensures kept { IfOk result (λ kept. (ids : IdSize) (facts : List FactValue) → IsTreeOf ids facts retained.now
        → IsKept ids facts retained.now (node_at retained.now place) kept) }
    ensures places { IfOk result (HasPlaces retained.now) }
{
    let above = dominators_of(alloc, retained, place)?;
    let below = children_of(alloc, retained, place)?;
    Ok(Kept::Held { above, below })
}

/// Returns whether an identifier has a class dump or an object dump.
pub(crate) fn is_dumped(heap: &Heap, id: u64) -> bool
    ensures { IsTrue result ↔ IsDumped (facts_of heap.now) id }
{
    holds_of_heap(heap);
    find_class(heap, id).is_some() || find_object(heap, id).is_some()
}

/// Returns what is told of an identifier of a heap with its objects in memory. `weak` are the weak fields of the heap's classes, and
/// `retained` is what its nodes retain. `weakly` are the nodes that only weak references reach; they are made, and kept there, if they are
/// wanted and not there yet. If memory runs out, the answer is `AllocError`.
pub(crate) fn kept_of(
    alloc: Global,
    heap: &Heap,
    weak: &LeftOut,
    retained: &Retained,
    weakly: &mut Option<WeaklyHeld>,
    id: u64,
) -> Result<Kept, AllocError>
    requires weak { (edge : Edge) → IsEdge (size_of heap.now) (facts_of heap.now) edge
        → IsLeftOut (fields_in weak.now) (facts_of heap.now) edge ↔ IsWeak (facts_of heap.now) edge }
    requires retained { IsTreeOf (size_of heap.now) (facts_of heap.now) retained.now }
    requires weakly { IfSome weakly.old (AreWeaklyHeld (size_of heap.now) (facts_of heap.now)) }
    ensures kept { IfOk result (IsKept (size_of heap.now) (facts_of heap.now) retained.now id) }
    ensures places { IfOk result (HasPlaces retained.now) }
    ensures weakly { IfSome weakly.new (AreWeaklyHeld (size_of heap.now) (facts_of heap.now)) }
{
    holds_of_heap(heap);
    if id == 0 {
        let sum = weak_sum(alloc, heap, weak, retained, weakly)?;
        return roots_kept(alloc, retained, sum);
    }
    if !is_dumped(heap, id) {
        return Ok(Kept::Nothing);
    }
    let place = retained.place(id);
    if place != 0 {
        return held_kept(alloc, retained, place);
    }
    if is_weakly_held(alloc, heap, weak, retained, weakly, id)? {
        Ok(Kept::Weakly)
    } else {
        Ok(Kept::Nowise)
    }
}
