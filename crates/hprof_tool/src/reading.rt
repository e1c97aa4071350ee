//! Reading parts into a heap.

ghost use Rattle.std.specs.Prelude.{◌≡◌, ℕ, List, All, IfOk};
ghost use Rattle.hprof_devices.specs.declared.health.Health.TheVariants.{Well};
ghost use Rattle.hprof_values.specs.declared.ids.IdSize.{IdSize};
ghost use Rattle.hprof_items.specs.FactValue.{FactValue};
ghost use Rattle.hprof_heap.specs.Heap.{heap_of};
ghost use Rattle.hprof_heap.specs.State.{IsState};
ghost use Rattle.hprof_engine.specs.Joining.{Tell, Agree, fault_of, IsOfReading, IsHindered, IsOkOrConflict, none_known};
ghost use Rattle.hprof_engine.specs.Makes.{Reads};

use hprof_devices::Source;
use hprof_engine::{NoSummaries, ToolFault};
use hprof_heap::{Gatherer, Heap};
use hprof_stream::Limits;
use std::alloc::Global;

/// Reads all parts in order, and returns the heap of their facts.
///
/// # Errors
///
/// The first of these that applies is the fault.
///
/// - `Part`: a part was refused, its reader failed, or memory ran out while it was read.
/// - `NoParts`, `IdSizes`: there are no parts, or they have two sizes of identifiers.
/// - `Conflict`: two facts have one key and different contents. This is the least such key.
pub fn read_heap<R: Source>(
    alloc: Global,
    readers: &mut [R],
    limits: Limits,
) -> Result<Heap, ToolFault>
    requires readers { All (λ reader. R.health reader ≡ Well) readers.old }

    // What Ok means: the parts agree, and the heap is of what they state.
    ensures ok { IfOk result (λ heap. (parts : List (List ℕ)) → Tell R.left readers.old parts
        → Agree parts (heap_of heap).ids (heap_of heap).millis (heap_of heap).facts) }

    // What a refusal says of the parts.
    ensures reads { Reads R.left R.health R.pulls none_known limits readers.old readers.new (fault_of result) }
    ensures kind { IsOfReading (fault_of result) }

    // No other answer where the parts state something together, readers stay well, no want of memory was answered and no
    // limit was met.
    ensures no_other { (parts : List (List ℕ)) (ids : IdSize) (millis : ℕ) (facts : List FactValue)
        → Tell R.left readers.old parts → IsState parts ids millis facts
        → All (λ reader. R.health reader ≡ Well) readers.new
        → (IsHindered (fault_of result) → ⊥) → IsOkOrConflict (fault_of result) }
{
    let gatherer = Gatherer::new(alloc);
    hprof_engine::read_heap(alloc, readers, limits, gatherer, &NoSummaries, &mut ())
}
