//! Reading all parts into a gatherer.

ghost use Rattle.std.specs.Prelude.{◌≡◌, ℕ, [], length, All, OnOk};
ghost use Rattle.hprof_devices.specs.declared.health.Health.TheVariants.{Well};
ghost use Rattle.hprof_heap.specs.Gathering.{nothing_gathered};
ghost use Rattle.hprof_engine.specs.Joining.{ReadsAll, read_count, fault_of};
ghost use Rattle.hprof_engine.specs.Summaries.{HoldsFirst};

use crate::summaries::Summaries;
use crate::tool_fault::ToolFault;
use hprof_devices::Source;
use hprof_heap::Gather;
use hprof_stream::{Limits, read_part};
use std::alloc::Global;

/// Reads each part in order, gives its header and facts to the gatherer, and keeps its summary. The first part that is refused ends it.
pub(crate) fn read_parts<R: Source, G: Gather, S: Summaries>(
    alloc: Global,
    readers: &mut [R],
    limits: Limits,
    gatherer: &mut G,
    summaries: &S,
    kept: &mut S::Kept,
) -> Result<(), ToolFault>
    requires well { All (λ reader. R.health reader ≡ Well) readers.old }
    requires nothing { G.gathered gatherer.old ≡ nothing_gathered }
    requires none { S.holds summaries.now kept.old [] }
    requires room { S.has_room summaries.now kept.old (length readers.old) }
    ensures read { ReadsAll R.left R.health R.pulls limits readers.old (G.gathered gatherer.old) result readers.new
        (G.gathered gatherer.new) }
    ensures watches { (id : ℕ) → G.watches gatherer.old id → OnOk result (G.watches gatherer.new id) }
    ensures summaries { HoldsFirst R.left (S.holds summaries.now) readers.old (read_count (fault_of result) (length readers.old)) kept.new }
{
    for (index, reader) in readers.iter_mut().enumerate() {
        match read_part(alloc, reader, limits, gatherer) {
            Ok(summary) => summaries.keep(kept, summary),
            Err(fault) => return Err(ToolFault::Part { index, fault }),
        }
    }
    Ok(())
}
