//! The objects that the report `why` names.

ghost use Rattle.std.specs.Prelude.{◌≡◌, ◌++◌, ℕ, List, Contains, IfOk, OnOk};
ghost use Rattle.std.specs.List.Sorted.{IsStrictlyIncreasing};
ghost use Rattle.hprof_heap.specs.HeapFacts.{facts_of};
ghost use Rattle.hprof_why.specs.WhyObjects.{HasPathObjects, path_nodes};

use crate::reached::Reached;
use hprof_heap::Heap;
use hprof_holders::push_root_threads;
use hprof_reach::sort_once;
use hprof_threads::ThreadRoots;
use std::alloc::{AllocError, Global};

/// Returns the nodes of the path, none if there is no path.
fn nodes_of(reached: &Reached) -> &[u64]
    ensures { result.now ≡ path_nodes reached.now }
{
    match reached {
        Reached::Strongly(path) | Reached::Weakly(path) => &path.nodes,
        Reached::Nowise => &[],
    }
}

/// Appends the nodes of a path, and the objects of the threads of the roots of the first one. 0 is among them if a thread has no object.
fn push_path(
    alloc: Global,
    nodes: &mut Vec<u64>,
    heap: &Heap,
    path: &[u64],
) -> Result<(), AllocError>
    ensures grows { OnOk result ((more : List ℕ) × (nodes.new.items ≡ nodes.old.items ++ more)) }
    ensures has { OnOk result (HasPathObjects (facts_of heap.now) nodes.new.items path.now) }
{
    let Some((first, _rest)) = path.split_first() else {
        return Ok(());
    };
    let threads = ThreadRoots::of(alloc, heap)?;
    nodes.extend_from_slice(path)?;
    push_root_threads(alloc, nodes, heap, &threads, *first)
}

/// Returns an identifier, the nodes of the path along which it is reached, and the objects of the threads of the roots of the first one,
/// sorted, each once. 0 is among them if a thread has no object. If memory runs out, the answer is `AllocError`.
pub(crate) fn objects_of_why(
    alloc: Global,
    heap: &Heap,
    id: u64,
    reached: &Reached,
) -> Result<Vec<u64>, AllocError>
    ensures ascend { IfOk result (λ nodes. IsStrictlyIncreasing nodes.items) }
    ensures own { IfOk result (λ nodes. Contains nodes.items id) }
    ensures path { IfOk result (λ nodes. HasPathObjects (facts_of heap.now) nodes.items (path_nodes reached.now)) }
{
    let mut nodes = Vec::new(alloc);
    nodes.push(id)?;
    push_path(alloc, &mut nodes, heap, nodes_of(reached))?;
    sort_once(&mut nodes)?;
    Ok(nodes)
}
