//! The salvage of parts.

ghost use Rattle.std.specs.Prelude.{◌≡◌, ℕ, List, All, IfOk};
ghost use Rattle.std.specs.Io.KnownBytes.{Appends};
ghost use Rattle.hprof_devices.specs.declared.health.Health.TheVariants.{Well};
ghost use Rattle.hprof_dump.specs.Dump.{canonical_dump};
ghost use Rattle.hprof_heap.specs.Heap.{heap_of};
ghost use Rattle.hprof_engine.specs.Salvaging.{Salvages, SavesAll};
ghost use Rattle.hprof_engine.specs.Sound.{IsAsJoined, HaveNoFault, AnswersAsJoin};
ghost use Rattle.hprof_engine.specs.Through.{salvaged_in};

use crate::counter::PartCounter;
use crate::joined::Joined;
use crate::read::heap_of_all;
use crate::salvage_reading::read_through;
use crate::salvaged::{Salvaged, SalvagedHeap};
use crate::tool_fault::ToolFault;
use hprof_devices::{Source, Target};
use hprof_dump::write_canonical;
use hprof_stream::Limits;
use std::alloc::Global;

/// Does what [`salvage_to`] does, and returns the heap that was written, too: a program that ends need not free it row by row.
pub fn salvage_returning_heap<R: Source, W: Target>(
    alloc: Global,
    readers: &mut [R],
    target: &mut W,
    limits: Limits,
) -> Result<SalvagedHeap, ToolFault>
    requires readers { All (λ reader. R.health reader ≡ Well) readers.old }
    requires writer { W.health target.old ≡ Well }
    ensures salvages { Salvages R.left R.health R.pulls limits readers.old readers.new W.written W.health target.old target.new
        (salvaged_in result) }
    ensures joined { IfOk result (λ kept. IsAsJoined R.left W.written readers.old target.old target.new kept.salvaged) }
    ensures no_fault { (parts : List (List ℕ)) → HaveNoFault R.left R.health limits readers.old readers.new parts
        → AnswersAsJoin R.left R.health R.pulls limits readers.old readers.new W.written W.health target.old target.new
        (salvaged_in result) }

    // The heap that is handed back is what is saved of the parts, and the one whose dump was written.
    ensures saved { IfOk result (λ kept. (saves : SavesAll R.left R.health R.pulls limits readers.old readers.new W.written W.health
        target.old target.new kept.salvaged) × (saves.heap ≡ heap_of kept.heap)) }
    ensures heap { IfOk result (λ kept. let heap = heap_of kept.heap in
        Appends (W.written target.old) (W.written target.new) (canonical_dump heap.ids heap.millis heap.facts)) }
{
    let mut counter = PartCounter::new(alloc);
    let mut faults = Vec::new(alloc);
    read_through(alloc, readers, limits, &mut counter, &mut faults)?;
    let PartCounter { gatherer, parts } = counter;
    let heap = heap_of_all(gatherer)?;
    if let Err(fault) = write_canonical(&heap, target) {
        return Err(ToolFault::Write(fault));
    }
    let joined = Joined {
        parts,
        facts: heap.count(),
    };
    let salvaged = Salvaged { joined, faults };
    Ok(SalvagedHeap { salvaged, heap })
}

/// Reads all parts, whatever their faults, and writes the canonical dump of the facts before the first fault of each.
///
/// A part whose header is whole counts with its identifier size and its time. A part whose header is not whole is skipped.
/// Two sizes and a conflict are refused as in a join. A part ends the call only if memory runs out while it is read.
pub fn salvage_to<R: Source, W: Target>(
    alloc: Global,
    readers: &mut [R],
    target: &mut W,
    limits: Limits,
) -> Result<Salvaged, ToolFault>
    requires readers { All (λ reader. R.health reader ≡ Well) readers.old }
    requires writer { W.health target.old ≡ Well }
    ensures salvages { Salvages R.left R.health R.pulls limits readers.old readers.new W.written W.health target.old target.new result }

    // Where no fault is listed, it did what `join_to` does.
    ensures joined { IfOk result (λ salvaged. IsAsJoined R.left W.written readers.old target.old target.new salvaged) }

    // Where no part has a fault, it answers what `join_to` answers of the parts: a refusal and a fault of the writer, too.
    ensures no_fault { (parts : List (List ℕ)) → HaveNoFault R.left R.health limits readers.old readers.new parts
        → AnswersAsJoin R.left R.health R.pulls limits readers.old readers.new W.written W.health target.old target.new result }
{
    match salvage_returning_heap(alloc, readers, target, limits) {
        Ok(kept) => Ok(kept.salvaged),
        Err(fault) => Err(fault),
    }
}
