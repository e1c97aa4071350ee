//! Products of the heap alone.

ghost use Rattle.std.specs.Prelude.{◌≡◌, ℕ, List, ⊤};

use crate::product::{Product, ProductFault};
use crate::summaries::Summaries;
use hprof_devices::Target;
use hprof_heap::Heap;
use hprof_stream::PartSummary;
use std::alloc::{AllocError, Global};

/// A product that is made of the heap alone, as a dump is. Each is a [`Product`] that keeps no summaries of parts.
pub trait HeapProduct {
    ghost use Rattle.hprof_devices.specs.declared.health.Health.TheVariants.{Well};
    ghost use Rattle.hprof_rows.specs.HeapValue.{HeapValue};
    ghost use Rattle.hprof_heap.specs.Heap.{heap_of};
    ghost use Rattle.hprof_engine.specs.declared.heap_fault.HeapFault.{HeapFault};
    ghost use Rattle.hprof_engine.specs.Makes.{EndsWriting};

    // The text is made of that heap.
    ghost is_text: { Self → HeapValue → List ℕ → Type 0 };

    // The heap is refused for that reason, before the first byte.
    ghost refuses: { Self → HeapFault → HeapValue → Type 0 };

    // Writing it takes memory.
    ghost takes_memory: { Self → Type 0 };

    /// Writes the product of a heap. If the writer fails or memory runs out, the bytes written are the beginning of it.
    fn write_heap<W: Target>(
        &self,
        alloc: Global,
        heap: &Heap,
        target: &mut W,
    ) -> Result<(), ProductFault>
        requires { W.health target.old ≡ Well }
        ensures { EndsWriting W.written W.health (is_text self.now (heap_of heap.now))
            (λ refusal. refuses self.now refusal (heap_of heap.now)) (takes_memory self.now) target.old target.new result };

    // It is one text.
    ghost one_text: { (product : Self) (heap : HeapValue) (one other : List ℕ) → is_text product heap one
        → is_text product heap other → one ≡ other };
}

impl<P: HeapProduct> Summaries for P {
    ghost has_room = { λ product kept more. ⊤ };

    ghost holds = { λ product kept summaries. ⊤ };

    ghost takes_room = { λ product parts. ⊥ };

    type Kept = ();

    fn with_room(&self, _alloc: Global, _parts: usize) -> Result<(), AllocError> {
        Ok(())
    }

    fn keep(&self, _kept: &mut (), _summary: PartSummary) {}

    ghost no_room = { λ product takes. takes };
}

impl<P: HeapProduct> Product for P {
    ghost is_text = { λ product summaries. P.is_text product };

    ghost refuses = { P.refuses };

    ghost takes_memory = { P.takes_memory };

    fn write<W: Target>(
        &self,
        alloc: Global,
        _kept: &(),
        heap: &Heap,
        target: &mut W,
    ) -> Result<(), ProductFault> {
        self.write_heap(alloc, heap, target)
    }

    ghost one_text = { λ product summaries. P.one_text product };
}
