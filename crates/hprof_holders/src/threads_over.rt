//! The report `threads` by passes over objects.

ghost use Rattle.std.specs.Prelude.{◌≡◌};
ghost use Rattle.hprof_devices.specs.declared.health.Health.TheVariants.{Well};
ghost use Rattle.hprof_heap.specs.HeapFacts.{facts_of, size_of};
ghost use Rattle.hprof_lines.specs.Passed.{EndsPassed};
ghost use Rattle.hprof_passes.specs.Finding.{Finds};
ghost use Rattle.hprof_holders.specs.ThreadObjects.{IsThreadsHeap};
ghost use Rattle.hprof_holders.specs.ThreadsText.{IsThreadsText};

use crate::thread_objects::objects_of_threads;
use crate::threads_report::write_threads;
use hprof_devices::Target;
use hprof_engine::ProductFault;
use hprof_heap::Heap;
use hprof_lines::stop_of_pass;
use hprof_naming::ClassNames;
use hprof_passes::{Objects, PassFault};
use hprof_threads::ThreadRoots;
use hprof_words::words_heap;
use std::alloc::{AllocError, Global};

/// Returns the heap of all objects that the report is read from.
///
/// # Errors
///
/// Those of `words_heap`.
fn threads_heap<O: Objects>(
    alloc: Global,
    heap: &Heap,
    objects: &O,
) -> Result<Heap, PassFault<AllocError, O::Fault>>
    ensures { Finds (O.make_up objects.now (size_of heap.now) (facts_of heap.now))
        (O.agree objects.now (size_of heap.now) (facts_of heap.now)) (O.tells objects.now (size_of heap.now) (facts_of heap.now))
        (λ all. IsThreadsHeap (size_of heap.now) all) result }
{
    match objects_of_threads(alloc, heap) {
        Ok(nodes) => words_heap(alloc, heap, objects, nodes),
        Err(fault) => Err(PassFault::Sink(fault)),
    }
}

/// Writes the report `threads`, as [`write_threads`] does. The heap has all facts but the objects, of which some are picked, one to
/// three times. Memory holds only those of threads, those that threads hold, and those that the texts of strings and the names of threads
/// among them are read from.
///
/// # Errors
///
/// - `Sink`: the writer failed or memory ran out. The bytes written are the beginning of the report.
/// - `Lost`: the objects cannot be gone through. Nothing was written.
pub fn write_threads_over<O: Objects, W: Target>(
    alloc: Global,
    heap: &Heap,
    objects: &O,
    target: &mut W,
) -> Result<(), PassFault<ProductFault, O::Fault>>
    requires { W.health target.old ≡ Well }
    ensures { EndsPassed (O.make_up objects.now (size_of heap.now) (facts_of heap.now))
        (O.agree objects.now (size_of heap.now) (facts_of heap.now)) (O.tells objects.now (size_of heap.now) (facts_of heap.now))
        (λ all. IsThreadsText (size_of heap.now) all) W.written W.health target.old target.new result }
{
    let small = match threads_heap(alloc, heap, objects) {
        Ok(small) => small,
        Err(stop) => return Err(stop_of_pass(stop)),
    };
    let Ok(roots) = ThreadRoots::of(alloc, &small) else {
        return Err(PassFault::Sink(ProductFault::OutOfMemory));
    };
    let Ok(classes) = ClassNames::of(alloc, &small) else {
        return Err(PassFault::Sink(ProductFault::OutOfMemory));
    };
    match write_threads(alloc, &small, &roots, &classes, target) {
        Ok(()) => Ok(()),
        Err(stop) => Err(PassFault::Sink(stop)),
    }
}
