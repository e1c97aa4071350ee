//! What only weak references reach.

ghost use Rattle.std.specs.Prelude.{◌≡◌, ◌↔◌, IfOk, IfSome, IsTrue};
ghost use Rattle.hprof_edges.specs.Edges.{IsEdge};
ghost use Rattle.hprof_edges.specs.LeftOut.{IsLeftOut, fields_in};
ghost use Rattle.hprof_edges.specs.declared.edge.Edge.{Edge};
ghost use Rattle.hprof_heap.specs.HeapFacts.{facts_of, size_of};
ghost use Rattle.hprof_weak.specs.Weak.{IsWeak};
ghost use Rattle.hprof_retained.specs.Retained.{IsSumOver};
ghost use Rattle.hprof_retained.specs.Tree.{IsTreeOf};
ghost use Rattle.hprof_retained.specs.Weakly.{AreWeaklyHeld, IsWeaklyHeld, weak_sum_of};
ghost use Rattle.hprof_keeps.specs.WeakSum.{sum_of};

use hprof_edges::LeftOut;
use hprof_heap::Heap;
use hprof_retained::{Retained, WeaklyHeld, weakly_held};
use std::alloc::{AllocError, Global};

/// Returns whether only weak references reach a node. `weakly` are the nodes that only they reach, which are made, and kept there, if they
/// are not there yet. If memory runs out, the answer is `AllocError`.
pub(crate) fn is_weakly_held(
    alloc: Global,
    heap: &Heap,
    weak: &LeftOut,
    retained: &Retained,
    weakly: &mut Option<WeaklyHeld>,
    node: u64,
) -> Result<bool, AllocError>
    requires weak { (edge : Edge) → IsEdge (size_of heap.now) (facts_of heap.now) edge
        → IsLeftOut (fields_in weak.now) (facts_of heap.now) edge ↔ IsWeak (facts_of heap.now) edge }
    requires retained { IsTreeOf (size_of heap.now) (facts_of heap.now) retained.now }
    requires weakly { IfSome weakly.old (AreWeaklyHeld (size_of heap.now) (facts_of heap.now)) }
    ensures held { IfOk result (λ held. IsTrue held ↔ IsWeaklyHeld (size_of heap.now) (facts_of heap.now) node) }
    ensures weakly { IfSome weakly.new (AreWeaklyHeld (size_of heap.now) (facts_of heap.now)) }
{
    if let Some(nodes) = weakly {
        return Ok(nodes.is_held(node));
    }
    let nodes = weakly_held(alloc, heap, weak, retained)?;
    let held = nodes.is_held(node);
    *weakly = Some(nodes);
    Ok(held)
}

/// The sizes and the number of the nodes that only weak references reach.
#[derive(Drop)]
pub struct WeakSum {
    /// Bytes.
    pub(crate) bytes: u128,
    /// The number of nodes.
    pub(crate) objects: usize,
}

/// Returns the sum of nodes that only weak references reach.
pub fn sum_in(weakly: &WeaklyHeld) -> WeakSum
    ensures { sum_of result ≡ weak_sum_of weakly.now }
{
    WeakSum {
        bytes: weakly.bytes(),
        objects: weakly.objects(),
    }
}

/// Adds up the nodes of a heap that only weak references reach. `weakly` are these nodes, which are made, and kept there, if they are not
/// there yet. If memory runs out, the answer is `AllocError`.
pub fn weak_sum(
    alloc: Global,
    heap: &Heap,
    weak: &LeftOut,
    retained: &Retained,
    weakly: &mut Option<WeaklyHeld>,
) -> Result<WeakSum, AllocError>
    requires weak { (edge : Edge) → IsEdge (size_of heap.now) (facts_of heap.now) edge
        → IsLeftOut (fields_in weak.now) (facts_of heap.now) edge ↔ IsWeak (facts_of heap.now) edge }
    requires retained { IsTreeOf (size_of heap.now) (facts_of heap.now) retained.now }
    requires weakly { IfSome weakly.old (AreWeaklyHeld (size_of heap.now) (facts_of heap.now)) }
    ensures sum { IfOk result (λ sum. IsSumOver (size_of heap.now) (facts_of heap.now) (IsWeaklyHeld (size_of heap.now) (facts_of heap.now))
        (sum_of sum)) }
    ensures weakly { IfSome weakly.new (AreWeaklyHeld (size_of heap.now) (facts_of heap.now)) }
{
    if let Some(nodes) = weakly {
        return Ok(sum_in(nodes));
    }
    let nodes = weakly_held(alloc, heap, weak, retained)?;
    let sum = sum_in(&nodes);
    *weakly = Some(nodes);
    Ok(sum)
}
