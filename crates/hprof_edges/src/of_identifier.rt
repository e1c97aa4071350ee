//! The edges from an identifier.

ghost use Rattle.std.specs.Prelude.{◌≡◌, List, IfOk, OnOk};
ghost use Rattle.hprof_heap.specs.HeapFacts.{facts_of, size_of};
ghost use Rattle.hprof_edges.specs.declared.edge.Edge.{Edge};
ghost use Rattle.hprof_edges.specs.Collecting.{PutBehind};
ghost use Rattle.hprof_edges.specs.DumpEdges.{GivenByClass, GivenByInstance, GivenByObject};
ghost use Rattle.hprof_edges.specs.Edges.{AreEdgesFrom};

use crate::collect::Collect;
use crate::edge::Edge;
use crate::edge_set::EdgeSet;
use crate::of_class::class_edges;
use crate::of_object::{array_edges, edge_to_class};
use crate::putting::put_values;
use crate::sorting::sort_edges;
use hprof_heap::{Cursor, Heap, ObjectDump, find_class_near, find_object, holds_of_heap};
use hprof_layouts::{Fields, Wanted, fields};
use std::alloc::{AllocError, Global};

/// Puts the edges from an identifier's class dump, if it has one.
pub(crate) fn put_of_class<C: Collect>(
    heap: &Heap,
    id: u64,
    near: &mut Cursor,
    into: &mut C,
) -> Result<(), AllocError>
    ensures holds { OnOk result ((edges : List Edge) → C.holds into.old edges
        → PutBehind (C.holds into.new) edges (λ edge. (edge.from ≡ id) × GivenByClass (facts_of heap.now) edge)) }
    ensures keeps { OnOk result (C.keeps into.new ≡ C.keeps into.old) }
{
    let Some(dump) = find_class_near(heap, id, near) else {
        return Ok(());
    };
    class_edges(&dump, into)?;
    Ok(())
}

/// Puts the edges from the fields of an instance. Only the layout of its class is found.
fn put_of_fields<C: Collect>(
    alloc: Global,
    heap: &Heap,
    id: u64,
    into: &mut C,
) -> Result<(), AllocError>
    ensures holds { OnOk result ((edges : List Edge) → C.holds into.old edges
        → PutBehind (C.holds into.new) edges (GivenByInstance (size_of heap.now) (facts_of heap.now) id)) }
    ensures keeps { OnOk result (C.keeps into.new ≡ C.keeps into.old) }
{
    holds_of_heap(heap);
    let Fields::Values(values) = fields(alloc, heap, id)? else {
        return Ok(());
    };
    put_values(id, &values, into)?;
    Ok(())
}

/// Puts the edges from an identifier's object dump, if it has one.
fn put_of_object<C: Collect>(
    alloc: Global,
    heap: &Heap,
    id: u64,
    into: &mut C,
) -> Result<(), AllocError>
    ensures holds { OnOk result ((edges : List Edge) → C.holds into.old edges
        → PutBehind (C.holds into.new) edges (λ edge. (edge.from ≡ id) × GivenByObject (size_of heap.now) (facts_of heap.now) edge)) }
    ensures keeps { OnOk result (C.keeps into.new ≡ C.keeps into.old) }
{
    match find_object(heap, id) {
        None => Ok(()),
        Some(ObjectDump::Instance { class, .. }) => {
            edge_to_class(id, class, into)?;
            put_of_fields(alloc, heap, id, into)?;
            Ok(())
        }
        Some(
            ObjectDump::ObjArray {
                class,
                elements,
                ..
            },
        ) => {
            array_edges(id, class, elements, into)?;
            Ok(())
        }
        // What is in an array of numbers refers to nothing.
        Some(ObjectDump::PrimArray { .. }) => Ok(()),
    }
}

/// Returns all edges from an identifier, in order, each once.
///
/// Its class dump and its object dump are looked up, and only the layout of its class is found. If memory runs out, the answer is
/// `AllocError`.
pub fn edges_of(alloc: Global, heap: &Heap, id: u64) -> Result<Vec<Edge>, AllocError>
    ensures { IfOk result (λ edges. AreEdgesFrom (size_of heap.now) (facts_of heap.now) id edges.items) }
{
    let mut set = EdgeSet::new(alloc, Wanted::All);
    put_of_class(heap, id, &mut Cursor::start(), &mut set)?;
    put_of_object(alloc, heap, id, &mut set)?;
    let mut edges = set.edges;
    sort_edges(&mut edges);
    Ok(edges)
}
