//! The objects of several classes, the largest first.

ghost use Rattle.std.specs.Prelude.{◌≡◌, ℕ, List};
ghost use Rattle.std.specs.List.Sorted.{IsStrictlyIncreasing};
ghost use Rattle.hprof_devices.specs.declared.health.Health.TheVariants.{Well};
ghost use Rattle.hprof_heap.specs.HeapFacts.{facts_of, size_of};
ghost use Rattle.hprof_lines.specs.Passed.{EndsPassed};
ghost use Rattle.hprof_lines.specs.Stopping.{LeavesTarget, WritesText};
ghost use Rattle.hprof_meaning.specs.ObjectsOfText.{IsObjectsOfText};

use hprof_devices::Target;
use hprof_engine::ProductFault;
use hprof_heap::{Heap, holds_of_heap};
use hprof_histogram::{Chosen, chosen_objects};
use hprof_lines::{stop_of_pass, write_object_lines};
use hprof_passes::{InHeap, Objects, PassFault};
use std::alloc::Global;

/// Writes a line for each instance and each array of objects of the classes, with the bytes of the object, the largest first, and nothing
/// if there is none. It is the report `objects` on several classes at once. The heap has all facts but the objects.
///
/// `classes` ascend strictly.
///
/// # Errors
///
/// - `Sink`: the writer failed or memory ran out. The bytes written are the beginning of the report.
/// - `Lost`: the objects cannot be gone through. Nothing was written.
pub fn write_objects_of_classes_over<O: Objects, W: Target>(
    alloc: Global,
    heap: &Heap,
    objects: &O,
    classes: &[u64],
    target: &mut W,
) -> Result<(), PassFault<ProductFault, O::Fault>>
    requires ascend { IsStrictlyIncreasing classes.now }
    requires well { W.health target.old ≡ Well }
    ensures { EndsPassed (O.make_up objects.now (size_of heap.now) (facts_of heap.now))
        (O.agree objects.now (size_of heap.now) (facts_of heap.now)) (O.tells objects.now (size_of heap.now) (facts_of heap.now))
        (λ all. IsObjectsOfText (size_of heap.now) all classes.now) W.written W.health target.old target.new result }
{
    let found = match chosen_objects(alloc, heap, objects, Chosen::Classes(classes)) {
        Ok(found) => found,
        Err(stop) => return Err(stop_of_pass(stop)),
    };
    match write_object_lines(alloc, &found, target) {
        Ok(()) => Ok(()),
        Err(stop) => Err(PassFault::Sink(stop)),
    }
}

/// Writes the same on a heap with its objects in memory. If the writer fails or memory runs out, the bytes written are the beginning of the
/// report.
pub fn write_objects_of_classes<W: Target>(
    alloc: Global,
    heap: &Heap,
    classes: &[u64],
    target: &mut W,
) -> Result<(), ProductFault>
    requires ascend { IsStrictlyIncreasing classes.now }
    requires well { W.health target.old ≡ Well }
    ensures bytes { (text : List ℕ) × IsObjectsOfText (size_of heap.now) (facts_of heap.now) classes.now text
        × WritesText (W.written target.old) (W.written target.new) result text }
    ensures health { LeavesTarget result (W.health target.new) }
{
    holds_of_heap(heap);
    match write_objects_of_classes_over(alloc, heap, &InHeap, classes, target) {
        Ok(()) => Ok(()),
        Err(stop) => Err(stop.of_sink()),
    }
}
