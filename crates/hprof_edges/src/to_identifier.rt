//! The edges to an identifier.

ghost use Rattle.std.specs.Prelude.{◌≡◌, List, [], IfOk, OnOk};
ghost use Rattle.hprof_heap.specs.HeapFacts.{facts_of, size_of};
ghost use Rattle.hprof_layouts.specs.Known.{Knows};
ghost use Rattle.hprof_layouts.specs.declared.reference.Wanted.TheVariants.{To};
ghost use Rattle.hprof_passes.specs.Finding.{Finds};
ghost use Rattle.hprof_edges.specs.declared.edge.Edge.{Edge};
ghost use Rattle.hprof_edges.specs.Collecting.{PutBehind, is_edge_wanted};
ghost use Rattle.hprof_edges.specs.DumpEdges.{GivenByClass};
ghost use Rattle.hprof_edges.specs.EdgeSet.{SetOf, wanted_in};
ghost use Rattle.hprof_edges.specs.Edges.{AreReferrers};

use crate::collect::Collect;
use crate::edge::Edge;
use crate::edge_set::EdgeSet;
use crate::of_class::class_edges;
use crate::referrer_sink::ReferrerSink;
use crate::sorting::sort_edges;
use hprof_heap::{Heap, Table, holds_of_heap, table_facts, to_class_dump};
use hprof_layouts::{Wanted, known_layouts};
use hprof_passes::{InHeap, Objects, PassFault};
use std::alloc::{AllocError, Global};

/// Puts the edges from all class dumps of a heap.
fn put_of_classes<C: Collect>(heap: &Heap, into: &mut C) -> Result<(), AllocError>
    ensures holds { OnOk result ((edges : List Edge) → C.holds into.old edges
        → PutBehind (C.holds into.new) edges (GivenByClass (facts_of heap.now))) }
    ensures keeps { OnOk result (C.keeps into.new ≡ C.keeps into.old) }
{
    for fact in table_facts(heap, Table::Classes) {
        if let Some(dump) = to_class_dump(&fact) {
            class_edges(&dump, into)?;
        }
    }
    Ok(())
}

/// Returns a sink that has the edges to an identifier from the class dumps of a heap. The layout of each class is found once.
fn begun(alloc: Global, heap: &Heap, id: u64) -> Result<ReferrerSink, AllocError>
    ensures knows { IfOk result (λ sink. Knows (size_of heap.now) (facts_of heap.now) sink.known) }
    ensures classes { IfOk result (λ sink. PutBehind (SetOf sink.set) [] (GivenByClass (facts_of heap.now))) }
    ensures keeps { IfOk result (λ sink. is_edge_wanted (wanted_in sink.set) ≡ is_edge_wanted (To id)) }
{
    let mut set = EdgeSet::new(alloc, Wanted::To(id));
    put_of_classes(heap, &mut set)?;
    let known = known_layouts(alloc, heap)?;
    Ok(ReferrerSink {
        known,
        set,
        references: Vec::new(alloc),
    })
}

/// Returns all edges to an identifier that objects make up with a heap, in order, each once. There are none to 0. The heap has all facts
/// but objects.
///
/// Walks over all class dumps, and goes through the objects once. Allocates for the edges and for the plan of each class.
///
/// # Errors
///
/// - `Sink`: memory ran out.
/// - `Lost`: the objects cannot be gone through.
pub fn referrers_over<O: Objects>(
    alloc: Global,
    heap: &Heap,
    objects: &O,
    id: u64,
) -> Result<Vec<Edge>, PassFault<AllocError, O::Fault>>
    ensures { Finds (O.make_up objects.now (size_of heap.now) (facts_of heap.now))
        (O.agree objects.now (size_of heap.now) (facts_of heap.now))
        (O.tells objects.now (size_of heap.now) (facts_of heap.now))
        (λ all edges. AreReferrers (size_of heap.now) all id edges.items) result }
{
    let mut sink = begun(alloc, heap, id).map_err(|fault| PassFault::Sink(fault))?;
    objects.pass(alloc, heap, &mut sink)?;
    let ReferrerSink { set, .. } = sink;
    let mut edges = set.edges;
    sort_edges(&mut edges);
    Ok(edges)
}

/// Returns all edges to an identifier of a heap with its objects in memory, as [`referrers_over`] does. If memory runs out, the answer is
/// `AllocError`.
pub fn referrers(alloc: Global, heap: &Heap, id: u64) -> Result<Vec<Edge>, AllocError>
    ensures { IfOk result (λ edges. AreReferrers (size_of heap.now) (facts_of heap.now) id edges.items) }
{
    holds_of_heap(heap);
    match referrers_over(alloc, heap, &InHeap, id) {
        Ok(edges) => Ok(edges),
        Err(stop) => Err(stop.of_sink()),
    }
}
