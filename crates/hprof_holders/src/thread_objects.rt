//! The objects of threads, and those that threads hold.

ghost use Rattle.std.specs.Prelude.{◌≡◌, ◌++◌, ◌∷◌, ℕ, List, IfOk, OnOk, map};
ghost use Rattle.std.specs.List.Sorted.{IsStrictlyIncreasing};
ghost use Rattle.hprof_heap.specs.HeapFacts.{facts_of};
ghost use Rattle.hprof_threads.specs.Held.{AreHeld};
ghost use Rattle.hprof_threads.specs.ThreadRoots.{AreThreadRoots};
ghost use Rattle.hprof_holders.specs.ThreadObjects.{HasAllThreadObjects, HasThreadObjects};

use hprof_heap::{Heap, holds_of_heap};
use hprof_reach::sort_once;
use hprof_threads::{Held, HeldObjects, ThreadRoots, thread_object, thread_serials};
use std::alloc::{AllocError, Global};

/// Appends the objects that are held.
fn push_held(nodes: &mut Vec<u64>, rows: &[Held]) -> Result<(), AllocError>
    ensures { OnOk result (nodes.new.items ≡ nodes.old.items ++ map (λ held. held.object) rows.now) }
{
    let mut rest = rows;
    while let Some((held, after)) = rest.split_first() {
        nodes.push(held.object)?;
        rest = after;
    }
    Ok(())
}

/// Appends the object of a thread, 0 if it has none, and the objects that it holds.
fn push_thread(
    nodes: &mut Vec<u64>,
    heap: &Heap,
    roots: &ThreadRoots,
    held: &HeldObjects,
    serial: u32,
) -> Result<(), AllocError>
    requires roots { AreThreadRoots (facts_of heap.now) roots.now }
    requires held { AreHeld (facts_of heap.now) held.now.rows.items }
    ensures grows { OnOk result ((more : List ℕ) × (nodes.new.items ≡ nodes.old.items ++ more)) }
    ensures has { OnOk result (HasThreadObjects (facts_of heap.now) nodes.new.items serial) }
{
    holds_of_heap(heap);
    let object = thread_object(heap, roots, serial);
    nodes.push(object)?;
    push_held(nodes, held.held_by_thread(serial))?;
    Ok(())
}

/// Returns the objects of all threads, and all that threads hold, sorted, each once. 0 is among them if a thread has no object. If memory
/// runs out, the answer is `AllocError`.
pub(crate) fn objects_of_threads(alloc: Global, heap: &Heap) -> Result<Vec<u64>, AllocError>
    ensures ascend { IfOk result (λ nodes. IsStrictlyIncreasing nodes.items) }
    ensures has { IfOk result (λ nodes. HasAllThreadObjects (facts_of heap.now) nodes.items) }
{
    let roots = ThreadRoots::of(alloc, heap)?;
    let held = HeldObjects::of(alloc, heap)?;
    let serials = thread_serials(alloc, heap)?;
    let mut nodes = Vec::new(alloc);
    for serial in &serials {
        push_thread(&mut nodes, heap, &roots, &held, *serial)?;
    }
    sort_once(&mut nodes)?;
    Ok(nodes)
}
