//! Distances and paths from GC roots by passes over objects.

ghost use Rattle.std.specs.Prelude.{◌≡◌, ◌↔◌, ℕ, List, Contains, IfOk};
ghost use Rattle.hprof_values.specs.declared.ids.IdSize.{IdSize};
ghost use Rattle.hprof_items.specs.FactValue.{FactValue};
ghost use Rattle.hprof_edges.specs.declared.field_place.FieldPlace.{FieldPlace};
ghost use Rattle.hprof_edges.specs.LeftOut.{IsKept, fields_in};
ghost use Rattle.hprof_heap.specs.HeapFacts.{facts_of, size_of};
ghost use Rattle.hprof_numbers.specs.Numbers.{items_in};
ghost use Rattle.hprof_passes.specs.Finding.{Finds};
ghost use Rattle.hprof_reach.specs.NumberedGraph.{IsGraphBy, IsNumbered, node_at};
ghost use Rattle.hprof_reach.specs.Reaching.{IsReachBy};

use crate::numbered_graph::NumberedGraph;
use crate::numbering::graph_over;
use crate::reach::Reach;
use hprof_edges::LeftOut;
use hprof_heap::Heap;
use hprof_passes::{Objects, PassFault};
use hprof_search::{ByLists, search_numbered};
use std::alloc::{AllocError, Global};

/// Returns the nodes that GC roots keep alive, in any order. Repetitions are possible. If memory runs out, the answer is `AllocError`.
fn start_nodes(alloc: Global, graph: &NumberedGraph) -> Result<Vec<u64>, AllocError>
    requires { IsNumbered graph.now }
    ensures { IfOk result (λ starts. (id : ℕ) → Contains starts.items id
        ↔ ((number : ℕ) × Contains (items_in graph.now.starts) number × (node_at graph.now number ≡ id))) }
{
    let mut starts = Vec::with_capacity(alloc, graph.starts.len())?;
    for place in 0..graph.starts.len() {
        let number = graph.starts.get(place);
        starts.push(graph.nodes.node(number))?;
    }
    Ok(starts)
}

/// Searches a graph by numbers from its starts, breadth first. If memory runs out, the answer is `AllocError`.
fn reach_in(alloc: Global, graph: NumberedGraph) -> Result<Reach, AllocError>
    requires { IsNumbered graph }
    ensures { IfOk result (λ reach. (fields : List FieldPlace) (ids : IdSize) (facts : List FactValue)
        → IsGraphBy (IsKept fields facts) ids facts graph → IsReachBy (IsKept fields facts) ids facts reach) }
{
    let starts = start_nodes(alloc, &graph)?;
    let NumberedGraph { nodes, edges, .. } = graph;
    let mut steps = ByLists { lists: &edges };
    let search = search_numbered(alloc, &mut steps, nodes, &starts)?;
    Ok(Reach { search })
}

/// Searches the facts that objects make up with a heap from their GC roots, breadth first, without the edges by the fields in `left_out`,
/// as [`reach_without`](crate::reach_without) does. The heap has all facts but objects.
///
/// The objects are gone through twice. Memory holds the identifiers of all nodes, and four bytes for each reference between them.
///
/// # Errors
///
/// - `Sink`: memory ran out.
/// - `Lost`: the objects cannot be gone through.
pub fn reach_over<O: Objects>(
    alloc: Global,
    heap: &Heap,
    objects: &O,
    left_out: &LeftOut,
) -> Result<Reach, PassFault<AllocError, O::Fault>>
    ensures { Finds (O.make_up objects.now (size_of heap.now) (facts_of heap.now))
        (O.agree objects.now (size_of heap.now) (facts_of heap.now))
        (O.tells objects.now (size_of heap.now) (facts_of heap.now))
        (λ all. IsReachBy (IsKept (fields_in left_out.now) all) (size_of heap.now) all) result }
{
    let graph = graph_over(alloc, heap, objects, left_out)?;
    match reach_in(alloc, graph) {
        Ok(reach) => Ok(reach),
        Err(fault) => Err(PassFault::Sink(fault)),
    }
}
