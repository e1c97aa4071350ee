//! The report `object` by a pass over objects.

ghost use Rattle.std.specs.Prelude.{◌≡◌};
ghost use Rattle.hprof_devices.specs.declared.health.Health.TheVariants.{Well};
ghost use Rattle.hprof_heap.specs.HeapFacts.{facts_of, size_of};
ghost use Rattle.hprof_lines.specs.Passed.{EndsPassed};
ghost use Rattle.hprof_reports.specs.ObjectText.{IsObjectText};

use crate::object::write_object;
use hprof_devices::Target;
use hprof_engine::ProductFault;
use hprof_heap::Heap;
use hprof_lines::stop_of_pass;
use hprof_passes::{Objects, PassFault};
use hprof_small::small_heap;
use std::alloc::Global;

/// Writes the report `object` on an identifier, as [`write_object`] does. The heap has all facts but the objects, of which the one with
/// the identifier is picked. Memory holds only this one.
///
/// # Errors
///
/// - `Sink`: the writer failed or memory ran out. The bytes written are the beginning of the report.
/// - `Lost`: the objects cannot be gone through. Nothing was written.
pub fn write_object_over<O: Objects, W: Target>(
    alloc: Global,
    heap: &Heap,
    objects: &O,
    id: u64,
    target: &mut W,
) -> Result<(), PassFault<ProductFault, O::Fault>>
    requires { W.health target.old ≡ Well }
    ensures { EndsPassed (O.make_up objects.now (size_of heap.now) (facts_of heap.now))
        (O.agree objects.now (size_of heap.now) (facts_of heap.now)) (O.tells objects.now (size_of heap.now) (facts_of heap.now))
        (λ all. IsObjectText (size_of heap.now) all id) W.written W.health target.old target.new result }
{
    let small = match small_heap(alloc, heap, objects, &[id]) {
        Ok(small) => small,
        Err(stop) => return Err(stop_of_pass(stop)),
    };
    match write_object(alloc, &small, id, target) {
        Ok(()) => Ok(()),
        Err(stop) => Err(PassFault::Sink(stop)),
    }
}
