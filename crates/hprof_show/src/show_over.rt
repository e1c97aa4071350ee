//! The report `show` by passes over objects.

ghost use Rattle.std.specs.Prelude.{◌≡◌};
ghost use Rattle.hprof_devices.specs.declared.health.Health.TheVariants.{Well};
ghost use Rattle.hprof_heap.specs.HeapFacts.{facts_of, size_of};
ghost use Rattle.hprof_lines.specs.Passed.{EndsPassed};
ghost use Rattle.hprof_show.specs.ShowText.{IsShowText};

use crate::few::show_heap;
use crate::show::write_show;
use hprof_devices::Target;
use hprof_engine::ProductFault;
use hprof_heap::Heap;
use hprof_lines::stop_of_pass;
use hprof_naming::ClassNames;
use hprof_passes::{Objects, PassFault};
use std::alloc::Global;

/// Writes the report `show` on an identifier, as [`write_show`] does. The heap has all facts but the objects, of which some are picked, one
/// to four times. Memory holds only these:
///
/// - the object;
/// - what the class and the object refer to, and of an array its first 100 elements that are not 0;
/// - what the first field `value` of each of these refers to, as the array of a string;
/// - the name of each of these that is the object of a thread;
/// - what the first field `value` of each of those refers to.
///
/// # Errors
///
/// - `Sink`: the writer failed or memory ran out. The bytes written are the beginning of the report.
/// - `Lost`: the objects cannot be gone through. Nothing was written.
pub fn write_show_over<O: Objects, W: Target>(
    alloc: Global,
    heap: &Heap,
    objects: &O,
    id: u64,
    target: &mut W,
) -> Result<(), PassFault<ProductFault, O::Fault>>
    requires { W.health target.old ≡ Well }
    ensures { EndsPassed (O.make_up objects.now (size_of heap.now) (facts_of heap.now))
        (O.agree objects.now (size_of heap.now) (facts_of heap.now)) (O.tells objects.now (size_of heap.now) (facts_of heap.now))
        (λ all. IsShowText (size_of heap.now) all id) W.written W.health target.old target.new result }
{
    let small = match show_heap(alloc, heap, objects, id) {
        Ok(small) => small,
        Err(stop) => return Err(stop_of_pass(stop)),
    };
    let Ok(classes) = ClassNames::of(alloc, &small) else {
        return Err(PassFault::Sink(ProductFault::OutOfMemory));
    };
    match write_show(alloc, &small, &classes, id, target) {
        Ok(()) => Ok(()),
        Err(stop) => Err(PassFault::Sink(stop)),
    }
}
