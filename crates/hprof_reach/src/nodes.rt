//! The nodes of a heap: its classes and objects.

ghost use Rattle.std.specs.Prelude.{◌≡◌, ◌≢◌, ◌↔◌, ◌⊎◌, ℕ, IfOk, OnOk, Contains};
ghost use Rattle.std.specs.List.Sorted.{IsStrictlyIncreasing};
ghost use Rattle.hprof_heap.specs.HeapFacts.{facts_of, size_of};
ghost use Rattle.hprof_heap.specs.ObjectDump.{fact_of_object};
ghost use Rattle.hprof_heap.specs.Objects.{IsObject};
ghost use Rattle.hprof_passes.specs.Finding.{Finds};
ghost use Rattle.hprof_reach.specs.Nodes.{IsClassNode};
ghost use Rattle.hprof_reach.specs.Reaching.{IsNode};

use crate::node_sink::NodeSink;
use hprof_heap::{Heap, ObjectDump, Table, holds_of_heap, table_facts, table_len, to_class_dump};
use hprof_passes::{InHeap, Objects, PassFault};
use std::alloc::{AllocError, Global};

/// Appends an identifier, unless it is 0. If memory runs out, the answer is `AllocError`.
pub fn push_node(nodes: &mut Vec<u64>, id: u64) -> Result<(), AllocError>
    ensures { OnOk result ((node : ℕ) → Contains nodes.new.items node ↔ (Contains nodes.old.items node ⊎ ((node ≢ 0) × (id ≡ node)))) }
{
    if id != 0 {
        nodes.push(id)?;
    }
    Ok(())
}

/// Returns the identifier of an object dump.
pub fn id_of(dump: &ObjectDump<'_>) -> u64
    ensures { IsObject result (fact_of_object dump.now) }
{
    match *dump {
        ObjectDump::Instance { id, .. } => id,
        ObjectDump::ObjArray { id, .. } => id,
        ObjectDump::PrimArray { id, .. } => id,
    }
}

/// Appends the identifiers that have a class dump.
fn push_classes(heap: &Heap, nodes: &mut Vec<u64>) -> Result<(), AllocError>
    ensures { OnOk result ((node : ℕ) → Contains nodes.new.items node
        ↔ (Contains nodes.old.items node ⊎ IsClassNode (facts_of heap.now) node)) }
{
    for fact in table_facts(heap, Table::Classes) {
        if let Some(dump) = to_class_dump(&fact) {
            push_node(nodes, dump.id)?;
        }
    }
    Ok(())
}

/// Sorts numbers, and removes repetitions. The numbers of each table ascend, so this merges two runs. If memory runs out, the answer is
/// `AllocError`.
pub fn sort_once(nodes: &mut Vec<u64>) -> Result<(), AllocError>
    ensures ascend { OnOk result (IsStrictlyIncreasing nodes.new.items) }
    ensures same { OnOk result ((node : ℕ) → Contains nodes.new.items node ↔ Contains nodes.old.items node) }
{
    nodes.sort()?;
    nodes.dedup();
    Ok(())
}

/// Returns the nodes of a heap that have a class dump, sorted. If memory runs out, the answer is `AllocError`.
pub(crate) fn class_nodes(alloc: Global, heap: &Heap) -> Result<Vec<u64>, AllocError>
    ensures ascend { IfOk result (λ nodes. IsStrictlyIncreasing nodes.items) }
    ensures all { IfOk result (λ nodes. (node : ℕ) → Contains nodes.items node ↔ IsClassNode (facts_of heap.now) node) }
{
    let mut nodes = Vec::with_capacity(alloc, table_len(heap, Table::Classes))?;
    push_classes(heap, &mut nodes)?;
    sort_once(&mut nodes)?;
    Ok(nodes)
}

/// Returns a sink that has the nodes with a class dump, and room for the objects that the heap has in memory.
fn begun(alloc: Global, heap: &Heap) -> Result<NodeSink, AllocError>
    ensures { IfOk result (λ sink. (node : ℕ) → Contains sink.nodes.items node ↔ IsClassNode (facts_of heap.now) node) }
{
    let most = table_len(heap, Table::Classes).saturating_add(table_len(heap, Table::Objects));
    let mut nodes = Vec::with_capacity(alloc, most)?;
    push_classes(heap, &mut nodes)?;
    Ok(NodeSink { nodes })
}

/// Returns the nodes that objects make up with a heap, sorted. The heap has all other facts.
///
/// # Errors
///
/// - `Sink`: memory ran out.
/// - `Lost`: the objects cannot be gone through.
pub(crate) fn nodes_over<O: Objects>(
    alloc: Global,
    heap: &Heap,
    objects: &O,
) -> Result<Vec<u64>, PassFault<AllocError, O::Fault>>
    ensures ascend { IfOk result (λ nodes. IsStrictlyIncreasing nodes.items) }
    ensures all { Finds (O.make_up objects.now (size_of heap.now) (facts_of heap.now))
        (O.agree objects.now (size_of heap.now) (facts_of heap.now))
        (O.tells objects.now (size_of heap.now) (facts_of heap.now))
        (λ all nodes. (node : ℕ) → Contains nodes.items node ↔ IsNode all node) result }
{
    let mut sink = match begun(alloc, heap) {
        Ok(sink) => sink,
        Err(fault) => return Err(PassFault::Sink(fault)),
    };
    objects.pass(alloc, heap, &mut sink)?;
    let mut nodes = sink.nodes;
    match sort_once(&mut nodes) {
        Ok(()) => Ok(nodes),
        Err(fault) => Err(PassFault::Sink(fault)),
    }
}

/// Returns all nodes of a heap with its objects in memory, sorted. If memory runs out, the answer is `AllocError`.
pub fn nodes_of(alloc: Global, heap: &Heap) -> Result<Vec<u64>, AllocError>
    ensures ascend { IfOk result (λ nodes. IsStrictlyIncreasing nodes.items) }
    ensures all { IfOk result (λ nodes. (node : ℕ) → Contains nodes.items node ↔ IsNode (facts_of heap.now) node) }
{
    holds_of_heap(heap);
    match nodes_over(alloc, heap, &InHeap) {
        Ok(nodes) => Ok(nodes),
        Err(stop) => Err(stop.of_sink()),
    }
}
