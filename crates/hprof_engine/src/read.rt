//! Reading all parts into one heap.

ghost use Rattle.std.specs.Prelude.{◌≡◌, ℕ, List, [], length, All, IfOk};
ghost use Rattle.hprof_devices.specs.declared.health.Health.TheVariants.{Well};
ghost use Rattle.hprof_values.specs.declared.ids.IdSize.{IdSize};
ghost use Rattle.hprof_items.specs.FactValue.{FactValue};
ghost use Rattle.hprof_heap.specs.Gathering.{Given, nothing_gathered, Gathers};
ghost use Rattle.hprof_heap.specs.State.{IsState};
ghost use Rattle.hprof_engine.specs.Joining.{Tell, Agree, fault_of, read_count, IsOfReading, IsHindered, IsOkOrConflict, none_known};
ghost use Rattle.hprof_engine.specs.Makes.{Reads};
ghost use Rattle.hprof_engine.specs.Summaries.{HoldsFirst};
ghost use Rattle.hprof_engine.specs.Through.{TellsHeap};

use crate::parts::read_parts;
use crate::summaries::Summaries;
use crate::tool_fault::ToolFault;
use hprof_devices::Source;
use hprof_heap::{Gather, Refusal};
use hprof_stream::Limits;
use std::alloc::Global;

/// Returns the heap of all facts that a gatherer was given, or why they have none.
pub(crate) fn heap_of_all<G: Gather>(gatherer: G) -> Result<G::Found, ToolFault>
    requires given { (given : List Given) × Gathers nothing_gathered given (G.gathered gatherer) }
    ensures told { (given : List Given) → Gathers nothing_gathered given (G.gathered gatherer) → TellsHeap G.heap_in given result }
    ensures listed { IfOk result (λ found. (id : ℕ) → G.watches gatherer id → G.lists found id) }
{
    match gatherer.finish() {
        Ok(found) => Ok(found),
        Err(Refusal::NoParts) => Err(ToolFault::NoParts),
        Err(Refusal::IdSizes) => Err(ToolFault::IdSizes),
        Err(Refusal::Conflict(key)) => Err(ToolFault::Conflict(key)),
        // It has answered no fault.
        Err(Refusal::Failed) => unreachable!(),
    }
}

/// Reads all parts in order into a gatherer, and returns the heap of their facts with the data that the gatherer kept beside it.
/// `summaries` takes the summary of each part that was read to its end, and keeps it in `kept`.
pub fn read_heap<R: Source, G: Gather + Drop, S: Summaries>(
    alloc: Global,
    readers: &mut [R],
    limits: Limits,
    mut gatherer: G,
    summaries: &S,
    kept: &mut S::Kept,
) -> Result<G::Found, ToolFault>
    requires readers { All (λ reader. R.health reader ≡ Well) readers.old }
    requires nothing { G.gathered gatherer ≡ nothing_gathered }
    requires none { S.holds summaries.now kept.old [] }
    requires room { S.has_room summaries.now kept.old (length readers.old) }

    // What Ok means: the parts agree, the heap is of what they state, and what was watched is listed.
    ensures ok { IfOk result (λ found. (parts : List (List ℕ)) → Tell R.left readers.old parts
        → let heap = G.heap_in found in Agree parts heap.ids heap.millis heap.facts) }
    ensures listed { IfOk result (λ found. (id : ℕ) → G.watches gatherer id → G.lists found id) }

    // What a refusal says of the parts, which reading alone answers.
    ensures reads { Reads R.left R.health R.pulls none_known limits readers.old readers.new (fault_of result) }
    ensures kind { IsOfReading (fault_of result) }

    // At a refusal too, the summary was told of each that was read to its end, and of no other.
    ensures told { HoldsFirst R.left (S.holds summaries.now) readers.old (read_count (fault_of result) (length readers.old)) kept.new }

    // No other answer where the parts state something together, readers stay well, no want of memory was answered and no
    // limit was met.
    ensures no_other { (parts : List (List ℕ)) (ids : IdSize) (millis : ℕ) (facts : List FactValue)
        → Tell R.left readers.old parts → IsState parts ids millis facts
        → All (λ reader. R.health reader ≡ Well) readers.new
        → (IsHindered (fault_of result) → ⊥) → IsOkOrConflict (fault_of result) }
{
    read_parts(alloc, readers, limits, &mut gatherer, summaries, kept)?;
    heap_of_all(gatherer)
}
