//! Counting the objects of a heap by kind.

ghost use Rattle.std.specs.Prelude.{List, IsSome};
ghost use Rattle.hprof_items.specs.FactValue.{FactValue};
ghost use Rattle.hprof_heap.specs.HeapFacts.{facts_of, size_of};
ghost use Rattle.hprof_passes.specs.Finding.{Finds};
ghost use Rattle.hprof_histogram.specs.CountedKinds.{IsTally};
ghost use Rattle.hprof_histogram.specs.Known.{MadeUpWith};

use crate::counted_kinds::CountedKinds;
use hprof_heap::Heap;
use hprof_passes::{Objects, PassFault};
use std::alloc::{AllocError, Global};

/// Counts objects by kind. The heap has all other facts.
///
/// # Errors
///
/// - `Sink`: memory ran out, or there are more objects than a number can count.
/// - `Lost`: the objects cannot be gone through.
pub fn count_objects<O: Objects>(
    alloc: Global,
    heap: &Heap,
    objects: &O,
) -> Result<CountedKinds, PassFault<AllocError, O::Fault>>
    ensures { Finds (O.make_up objects.now (size_of heap.now) (facts_of heap.now))
        (O.agree objects.now (size_of heap.now) (facts_of heap.now))
        (O.tells objects.now (size_of heap.now) (facts_of heap.now)) (λ all. IsTally (size_of heap.now) all) result }
{
    let mut tally = CountedKinds::new(alloc);
    match objects.pass(alloc, heap, &mut tally) {
        Ok(()) => Ok(tally),
        Err(stop) => Err(stop),
    }
}

/// Returns the counts that are known, or counts objects as [`count_objects`] does. The heap has all other facts.
///
/// # Errors
///
/// None if the counts are known.
///
/// - `Sink`: memory ran out, or there are more objects than a number can count.
/// - `Lost`: the objects cannot be gone through.
pub fn count_known<O: Objects>(
    alloc: Global,
    heap: &Heap,
    objects: &O,
    known: Option<CountedKinds>,
) -> Result<CountedKinds, PassFault<AllocError, O::Fault>>
    requires { IsSome known → O.agree objects.now (size_of heap.now) (facts_of heap.now) }
    ensures { Finds (MadeUpWith (O.make_up objects.now (size_of heap.now) (facts_of heap.now)) (size_of heap.now) known)
        (O.agree objects.now (size_of heap.now) (facts_of heap.now))
        (O.tells objects.now (size_of heap.now) (facts_of heap.now)) (λ all. IsTally (size_of heap.now) all) result }
{
    match known {
        Some(counts) => Ok(counts),
        None => count_objects(alloc, heap, objects),
    }
}
