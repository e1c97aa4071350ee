//! The heap of the objects that the words for some nodes of a tree are read from.

ghost use Rattle.std.specs.Prelude.{◌≡◌, ◌++◌, ℕ, Contains, IfOk, OnOk};
ghost use Rattle.std.specs.List.Sorted.{IsStrictlyIncreasing};
ghost use Rattle.hprof_heap.specs.HeapFacts.{facts_of, size_of};
ghost use Rattle.hprof_passes.specs.Finding.{Finds};
ghost use Rattle.hprof_keeps.specs.Kept.{ArePlaces, IsNamedHeap, nodes_at};

use hprof_heap::Heap;
use hprof_passes::{Objects, PassFault};
use hprof_reach::sort_once;
use hprof_retained::Retained;
use hprof_words::words_heap;
use std::alloc::{AllocError, Global};

/// Appends the nodes at these places.
fn push_nodes(retained: &Retained, places: &[usize], nodes: &mut Vec<u64>) -> Result<(), AllocError>
    requires { ArePlaces retained.now places.now }
    ensures { OnOk result (nodes.new.items ≡ nodes.old.items ++ nodes_at retained.now places.now) }
{
    for place in places {
        nodes.push(retained.node(*place))?;
    }
    Ok(())
}

/// Returns the nodes at these places, sorted, each once. If memory runs out, the answer is `AllocError`.
fn nodes_of(
    alloc: Global,
    retained: &Retained,
    some: &[usize],
    more: &[usize],
) -> Result<Vec<u64>, AllocError>
    requires some { ArePlaces retained.now some.now }
    requires more { ArePlaces retained.now more.now }
    ensures ascend { IfOk result (λ nodes. IsStrictlyIncreasing nodes.items) }
    ensures some { IfOk result (λ nodes. (node : ℕ) → Contains (nodes_at retained.now some.now) node → Contains nodes.items node) }
    ensures more { IfOk result (λ nodes. (node : ℕ) → Contains (nodes_at retained.now more.now) node → Contains nodes.items node) }
{
    let mut nodes = Vec::new(alloc);
    push_nodes(retained, some, &mut nodes)?;
    push_nodes(retained, more, &mut nodes)?;
    sort_once(&mut nodes)?;
    Ok(nodes)
}

/// Returns the heap of all objects that the words for the nodes at these places are read from.
///
/// # Errors
///
/// Those of `words_heap`.
pub(crate) fn named_heap<O: Objects>(
    alloc: Global,
    heap: &Heap,
    objects: &O,
    retained: &Retained,
    some: &[usize],
    more: &[usize],
) -> Result<Heap, PassFault<AllocError, O::Fault>>
    requires some { ArePlaces retained.now some.now }
    requires more { ArePlaces retained.now more.now }
    ensures { Finds (O.make_up objects.now (size_of heap.now) (facts_of heap.now))
        (O.agree objects.now (size_of heap.now) (facts_of heap.now)) (O.tells objects.now (size_of heap.now) (facts_of heap.now))
        (λ all. IsNamedHeap (size_of heap.now) (nodes_at retained.now some.now) (nodes_at retained.now more.now) all) result }
{
    match nodes_of(alloc, retained, some, more) {
        Ok(nodes) => words_heap(alloc, heap, objects, nodes),
        Err(fault) => Err(PassFault::Sink(fault)),
    }
}
