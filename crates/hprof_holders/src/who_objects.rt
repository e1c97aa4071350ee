//! The objects that the report `who` names.

ghost use Rattle.std.specs.Prelude.{◌≡◌, ◌++◌, ℕ, List, Contains, IfOk, OnOk, map};
ghost use Rattle.std.specs.List.Sorted.{IsStrictlyIncreasing};
ghost use Rattle.hprof_values.specs.declared.root.Root.{Root};
ghost use Rattle.hprof_heap.specs.HeapFacts.{facts_of};
ghost use Rattle.hprof_edges.specs.declared.edge.Edge.{Edge};
ghost use Rattle.hprof_threads.specs.ThreadRoots.{AreThreadRoots};
ghost use Rattle.hprof_holders.specs.WhoObjects.{HasRootObjects, HasThreadOf};

use hprof_edges::Edge;
use hprof_heap::{Heap, holds_of_heap};
use hprof_reach::{roots_of, sort_once};
use hprof_threads::{ThreadRoots, thread_object, thread_of_root};
use hprof_values::Root;
use std::alloc::{AllocError, Global};

/// Appends the objects that edges lead from.
fn push_froms(nodes: &mut Vec<u64>, edges: &[Edge]) -> Result<(), AllocError>
    ensures { OnOk result (nodes.new.items ≡ nodes.old.items ++ map (λ edge. edge.from) edges.now) }
{
    let mut rest = edges;
    while let Some((edge, after)) = rest.split_first() {
        nodes.push(edge.from)?;
        rest = after;
    }
    Ok(())
}

/// Appends the object of a root's thread, 0 if the thread has none. A root without a thread appends nothing.
fn push_root_thread(
    nodes: &mut Vec<u64>,
    heap: &Heap,
    threads: &ThreadRoots,
    root: Root,
) -> Result<(), AllocError>
    requires { AreThreadRoots (facts_of heap.now) threads.now }
    ensures grows { OnOk result ((more : List ℕ) × (nodes.new.items ≡ nodes.old.items ++ more)) }
    ensures has { OnOk result (HasThreadOf (facts_of heap.now) nodes.new.items root) }
{
    holds_of_heap(heap);
    let Some(serial) = thread_of_root(root) else {
        return Ok(());
    };
    nodes.push(thread_object(heap, threads, serial))?;
    Ok(())
}

/// Appends the objects of the threads of some roots.
fn push_threads(
    nodes: &mut Vec<u64>,
    heap: &Heap,
    threads: &ThreadRoots,
    roots: &[Root],
) -> Result<(), AllocError>
    requires { AreThreadRoots (facts_of heap.now) threads.now }
    ensures grows { OnOk result ((more : List ℕ) × (nodes.new.items ≡ nodes.old.items ++ more)) }
    ensures has { OnOk result ((root : Root) → Contains roots.now root → HasThreadOf (facts_of heap.now) nodes.new.items root) }
{
    let mut rest = roots;
    while let Some((root, after)) = rest.split_first() {
        push_root_thread(nodes, heap, threads, *root)?;
        rest = after;
    }
    Ok(())
}

/// Appends the objects of the threads of an identifier's roots. 0 is among them if a thread has no object.
pub fn push_root_threads(
    alloc: Global,
    nodes: &mut Vec<u64>,
    heap: &Heap,
    threads: &ThreadRoots,
    id: u64,
) -> Result<(), AllocError>
    requires { AreThreadRoots (facts_of heap.now) threads.now }
    ensures grows { OnOk result ((more : List ℕ) × (nodes.new.items ≡ nodes.old.items ++ more)) }
    ensures has { OnOk result (HasRootObjects (facts_of heap.now) nodes.new.items id) }
{
    let roots = roots_of(alloc, heap, id)?;
    push_threads(nodes, heap, threads, &roots)
}

/// Returns an identifier, the objects that some edges lead from, and the objects of the threads of the identifier's roots, sorted, each
/// once. 0 is among them if a thread has no object. If memory runs out, the answer is `AllocError`.
pub(crate) fn objects_of_who(
    alloc: Global,
    heap: &Heap,
    id: u64,
    edges: &[Edge],
) -> Result<Vec<u64>, AllocError>
    ensures ascend { IfOk result (λ nodes. IsStrictlyIncreasing nodes.items) }
    ensures own { IfOk result (λ nodes. Contains nodes.items id) }
    ensures froms { IfOk result (λ nodes. (edge : Edge) → Contains edges.now edge → Contains nodes.items edge.from) }
    ensures threads { IfOk result (λ nodes. HasRootObjects (facts_of heap.now) nodes.items id) }
{
    let threads = ThreadRoots::of(alloc, heap)?;
    let mut nodes = Vec::new(alloc);
    nodes.push(id)?;
    push_froms(&mut nodes, edges)?;
    push_root_threads(alloc, &mut nodes, heap, &threads, id)?;
    sort_once(&mut nodes)?;
    Ok(nodes)
}
