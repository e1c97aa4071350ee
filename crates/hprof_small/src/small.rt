//! The heap of a few objects, and of all other facts.

ghost use Rattle.std.specs.Prelude.{◌≡◌};
ghost use Rattle.std.specs.List.Sorted.{IsStrictlyIncreasing};
ghost use Rattle.hprof_heap.specs.Heap.{heap_of};
ghost use Rattle.hprof_heap.specs.HeapFacts.{facts_of, size_of};
ghost use Rattle.hprof_passes.specs.Finding.{Finds};
ghost use Rattle.hprof_small.specs.Small.{IsSmallHeap};

use crate::few_objects::FewObjects;
use hprof_heap::Heap;
use hprof_passes::{Objects, PassFault};
use std::alloc::{AllocError, Global};

/// Returns the heap of a few objects: of those with these identifiers, which ascend strictly. It has the size, the time and all other
/// facts of a heap.
///
/// # Errors
///
/// - `Sink`: memory ran out, or two of the objects have one identifier and differ, so that no heap has both.
/// - `Lost`: the objects cannot be gone through.
pub fn small_heap<O: Objects>(
    alloc: Global,
    heap: &Heap,
    objects: &O,
    wanted: &[u64],
) -> Result<Heap, PassFault<AllocError, O::Fault>>
    requires { IsStrictlyIncreasing wanted.now }
    ensures { Finds (O.make_up objects.now (size_of heap.now) (facts_of heap.now))
        (O.agree objects.now (size_of heap.now) (facts_of heap.now))
        (O.tells objects.now (size_of heap.now) (facts_of heap.now))
        (λ all. IsSmallHeap (heap_of heap.now).millis (size_of heap.now) wanted.now all) result }
{
    let mut few = match FewObjects::of(alloc, heap) {
        Ok(few) => few,
        Err(fault) => return Err(PassFault::Sink(fault)),
    };
    match objects.pick(alloc, heap, wanted, &mut few) {
        Ok(()) => {}
        Err(stop) => return Err(stop),
    }
    Ok(few.finish())
}
