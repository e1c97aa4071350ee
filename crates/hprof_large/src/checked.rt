//! The report `check`, which takes no memory while it is written.

ghost use Rattle.std.specs.Prelude.{◌≡◌};
ghost use Rattle.hprof_devices.specs.declared.health.Health.TheVariants.{Well};
ghost use Rattle.hprof_heap.specs.HeapFacts.{facts_of, size_of};
ghost use Rattle.hprof_reports.specs.Check.{IsCheck};
ghost use Rattle.hprof_lines.specs.Passed.{EndsPassed};

use hprof_devices::Target;
use hprof_engine::ProductFault;
use hprof_heap::Heap;
use hprof_passes::{Objects, PassFault};
use hprof_reports::write_check_over;
use hprof_stream::PartSummary;
use std::alloc::Global;

/// Writes the report `check`, as `write_check_over` does.
pub(crate) fn write_check<O: Objects, W: Target>(
    alloc: Global,
    summaries: &[PartSummary],
    heap: &Heap,
    objects: &O,
    target: &mut W,
) -> Result<(), PassFault<ProductFault, O::Fault>>
    requires { W.health target.old ≡ Well }
    ensures { EndsPassed (O.make_up objects.now (size_of heap.now) (facts_of heap.now))
        (O.agree objects.now (size_of heap.now) (facts_of heap.now)) (O.tells objects.now (size_of heap.now) (facts_of heap.now))
        (IsCheck summaries.now) W.written W.health target.old target.new result }
{
    match write_check_over(alloc, summaries, heap, objects, target) {
        Ok(()) => Ok(()),
        Err(PassFault::Sink(fault)) => Err(PassFault::Sink(ProductFault::Write(fault))),
        Err(PassFault::Lost(fault)) => Err(PassFault::Lost(fault)),
    }
}
