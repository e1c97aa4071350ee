//! Products that are made of passes over objects.

ghost use Rattle.std.specs.Prelude.{◌≡◌, ℕ, List, IsSome};
ghost use Rattle.hprof_items.specs.FactValue.{FactValue};
ghost use Rattle.hprof_heap.specs.Heap.{heap_of};
ghost use Rattle.hprof_heap.specs.HeapFacts.{facts_of, size_of};
ghost use Rattle.hprof_histogram.specs.Known.{MadeUpWith};
ghost use Rattle.hprof_making.specs.Over.{EndsOver, heap_with};

use hprof_devices::Target;
use hprof_engine::{ProductFault, Summaries};
use hprof_heap::Heap;
use hprof_histogram::CountedKinds;
use hprof_passes::{Objects, PassFault};
use std::alloc::Global;

/// A report that is made of the heap that parts state, whose objects are gone through, and of the summaries of the parts. It says which
/// summaries it wants.
pub trait PassProduct: Summaries {
    ghost use Rattle.hprof_devices.specs.declared.health.Health.TheVariants.{Well};
    ghost use Rattle.hprof_stream.specs.declared.summary.PartSummary.{PartSummary};
    ghost use Rattle.hprof_rows.specs.HeapValue.{HeapValue};
    ghost use Rattle.hprof_engine.specs.declared.heap_fault.HeapFault.{HeapFault};

    // The text is made of parts with these summaries, which state that heap.
    ghost is_text: { Self → List PartSummary → HeapValue → List ℕ → Type 0 };

    // The heap is refused for that reason, before the first byte.
    ghost refuses: { Self → HeapFault → HeapValue → Type 0 };

    /// Returns whether counts of the objects by kind are of use to it.
    fn wants_counts(&self) -> bool;

    /// Returns whether it picks objects more than once, or picks some beside other passes.
    fn wants_picks(&self) -> bool;

    /// Writes the product. The heap has all facts but the objects, whose counts by kind may be known.
    ///
    /// # Errors
    ///
    /// - `Sink`: the writer failed, memory ran out, or the heap was refused. The bytes written are the beginning of the product.
    /// - `Lost`: the objects cannot be gone through. Nothing was written.
    fn write_over<O: Objects, W: Target>(
        &self,
        alloc: Global,
        kept: &Self::Kept,
        heap: &Heap,
        objects: &O,
        known: Option<CountedKinds>,
        target: &mut W,
    ) -> Result<(), PassFault<ProductFault, O::Fault>>
        requires well { W.health target.old ≡ Well }
        requires agree { IsSome known → O.agree objects.now (size_of heap.now) (facts_of heap.now) }
        ensures { (summaries : List PartSummary) → Self.holds self.now kept.now summaries
            → EndsOver (MadeUpWith (O.make_up objects.now (size_of heap.now) (facts_of heap.now)) (size_of heap.now) known)
            (O.agree objects.now (size_of heap.now) (facts_of heap.now)) (O.tells objects.now (size_of heap.now) (facts_of heap.now))
            (λ all. is_text self.now summaries (heap_with (heap_of heap.now) all))
            (λ refusal all. refuses self.now refusal (heap_with (heap_of heap.now) all)) W.written W.health target.old target.new result };
}
