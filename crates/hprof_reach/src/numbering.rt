//! Making the graph of a heap by numbers.

ghost use Rattle.std.specs.Prelude.{◌≡◌, ◌↔◌, ℕ, ◌<◌, Contains, IfOk, length, slice_index};
ghost use Rattle.hprof_edges.specs.LeftOut.{IsKept, fields_in};
ghost use Rattle.hprof_heap.specs.HeapFacts.{facts_of, size_of};
ghost use Rattle.hprof_numbers.specs.Lists.{LeadsWithin, count_in};
ghost use Rattle.hprof_numbers.specs.Numbered.{nodes_in};
ghost use Rattle.hprof_numbers.specs.Numbers.{items_in};
ghost use Rattle.hprof_passes.specs.Finding.{Finds};
ghost use Rattle.hprof_reach.specs.EdgesMade.{AreKeptEdges};
ghost use Rattle.hprof_reach.specs.NumberedGraph.{IsGraphBy, IsNumbered};
ghost use Rattle.hprof_reach.specs.Reaching.{IsNode, IsRooted};

use crate::edge_sink::EdgeSink;
use crate::nodes::nodes_over;
use crate::numbered_graph::NumberedGraph;
use crate::starts::starts_of;
use hprof_edges::LeftOut;
use hprof_heap::{Heap, holds_of_heap};
use hprof_numbers::{Lists, Numbered, Numbers, numbers_of};
use hprof_passes::{InHeap, Objects, PassFault};
use std::alloc::{AllocError, Global};

/// Returns the nodes that objects make up with a heap, with their numbers.
fn numbered_over<O: Objects>(
    alloc: Global,
    heap: &Heap,
    objects: &O,
) -> Result<Numbered, PassFault<AllocError, O::Fault>>
    ensures { Finds (O.make_up objects.now (size_of heap.now) (facts_of heap.now))
        (O.agree objects.now (size_of heap.now) (facts_of heap.now))
        (O.tells objects.now (size_of heap.now) (facts_of heap.now))
        (λ all nodes. (node : ℕ) → Contains (nodes_in nodes) node ↔ IsNode all node) result }
{
    let nodes = nodes_over(alloc, heap, objects)?;
    match Numbered::new(alloc, nodes) {
        Ok(nodes) => Ok(nodes),
        Err(fault) => Err(PassFault::Sink(fault)),
    }
}

/// Returns nodes with the edges between them that objects make up with a heap, by numbers, without the edges by the fields in `left_out`.
///
/// The nodes need not be all that there are.
/// The objects are gone through once.
///
/// # Errors
///
/// - `Sink`: memory ran out.
/// - `Lost`: the objects cannot be gone through.
pub fn edges_over<O: Objects>(
    alloc: Global,
    heap: &Heap,
    objects: &O,
    left_out: &LeftOut,
    nodes: Numbered,
) -> Result<(Numbered, Lists), PassFault<AllocError, O::Fault>>
    ensures as_many { IfOk result (λ made. count_in made.1 ≡ length (nodes_in made.0)) }
    ensures leads { IfOk result (λ made. LeadsWithin made.1) }
    ensures exact { Finds (O.make_up objects.now (size_of heap.now) (facts_of heap.now))
        (O.agree objects.now (size_of heap.now) (facts_of heap.now))
        (O.tells objects.now (size_of heap.now) (facts_of heap.now))
        (λ all made. (nodes_in made.0 ≡ nodes_in nodes)
        × AreKeptEdges (size_of heap.now) all (fields_in left_out.now) (nodes_in made.0) made.1) result }
{
    let mut sink = match EdgeSink::new(alloc, heap, left_out, nodes) {
        Ok(sink) => sink,
        Err(fault) => return Err(PassFault::Sink(fault)),
    };
    objects.pass(alloc, heap, &mut sink)?;
    match sink.finish() {
        Ok(made) => Ok(made),
        Err(fault) => Err(PassFault::Sink(fault)),
    }
}

/// Returns the numbers of the nodes that the roots of a heap keep alive. If memory runs out, the answer is `AllocError`.
fn numbered_starts(alloc: Global, heap: &Heap, nodes: &Numbered) -> Result<Numbers, AllocError>
    ensures { IfOk result (λ starts. (number : ℕ) → Contains (items_in starts) number ↔ ((number < length (nodes_in nodes.now))
        × IsRooted (facts_of heap.now) (slice_index (nodes_in nodes.now) number))) }
{
    let starts = starts_of(alloc, heap)?;
    numbers_of(alloc, nodes, &starts)
}

/// Returns the graph by numbers of the facts that objects make up with a heap, without the edges by the fields in `left_out`. The heap has
/// all facts but objects.
///
/// The objects are gone through twice. Each reference is looked at once.
///
/// # Errors
///
/// - `Sink`: memory ran out.
/// - `Lost`: the objects cannot be gone through.
pub fn graph_over<O: Objects>(
    alloc: Global,
    heap: &Heap,
    objects: &O,
    left_out: &LeftOut,
) -> Result<NumberedGraph, PassFault<AllocError, O::Fault>>
    ensures numbered { IfOk result IsNumbered }
    ensures graph { Finds (O.make_up objects.now (size_of heap.now) (facts_of heap.now))
        (O.agree objects.now (size_of heap.now) (facts_of heap.now))
        (O.tells objects.now (size_of heap.now) (facts_of heap.now))
        (λ all. IsGraphBy (IsKept (fields_in left_out.now) all) (size_of heap.now) all) result }
{
    let numbered = numbered_over(alloc, heap, objects)?;
    let (nodes, edges) = edges_over(alloc, heap, objects, left_out, numbered)?;
    let starts = match numbered_starts(alloc, heap, &nodes) {
        Ok(starts) => starts,
        Err(fault) => return Err(PassFault::Sink(fault)),
    };
    Ok(NumberedGraph {
        nodes,
        edges,
        starts,
    })
}

/// Returns the graph by numbers of a heap with its objects in memory, as [`graph_over`] does. If memory runs out, the answer is
/// `AllocError`.
pub fn graph_by_numbers(
    alloc: Global,
    heap: &Heap,
    left_out: &LeftOut,
) -> Result<NumberedGraph, AllocError>
    ensures { IfOk result (IsGraphBy (IsKept (fields_in left_out.now) (facts_of heap.now)) (size_of heap.now) (facts_of heap.now)) }
{
    holds_of_heap(heap);
    match graph_over(alloc, heap, &InHeap, left_out) {
        Ok(graph) => Ok(graph),
        Err(stop) => Err(stop.of_sink()),
    }
}
