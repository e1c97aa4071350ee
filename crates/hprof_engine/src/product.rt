//! Products of parts: dumps and reports.

ghost use Rattle.std.specs.Prelude.{◌≡◌, ℕ, List};

use crate::heap_fault::HeapFault;
use crate::summaries::Summaries;
use hprof_devices::{Target, WriteFault};
use hprof_heap::Heap;
use std::alloc::{AllocError, Global};
use thiserror::Error;

/// The reason why the writing of a product stopped.
#[derive(Clone, Copy, Debug, PartialEq, Eq, Error)]
pub enum ProductFault {
    /// The writer failed or stuck.
    #[error("{0}")]
    Write(WriteFault),
    /// The heap was refused. Nothing was written.
    #[error("{0}")]
    Refused(HeapFault),
    /// Memory ran out.
    #[error("out of memory")]
    OutOfMemory,
}

impl From<AllocError> for ProductFault {
    ghost use Rattle.hprof_engine.specs.declared.product.ProductFault.TheVariants.{OutOfMemory};

    ghost from_gives = { λ _ stop. stop ≡ OutOfMemory };

    fn from(_error: AllocError) -> ProductFault {
        ProductFault::OutOfMemory
    }
}

impl From<WriteFault> for ProductFault {
    ghost use Rattle.hprof_engine.specs.declared.product.ProductFault.TheVariants.{Write};

    ghost from_gives = { λ fault given. given ≡ Write fault };

    fn from(fault: WriteFault) -> ProductFault {
        ProductFault::Write(fault)
    }
}

impl From<HeapFault> for ProductFault {
    ghost use Rattle.hprof_engine.specs.declared.product.ProductFault.TheVariants.{Refused};

    ghost from_gives = { λ refusal given. given ≡ Refused refusal };

    fn from(refusal: HeapFault) -> ProductFault {
        ProductFault::Refused(refusal)
    }
}

/// A dump or a report: a text that is made of the heap that parts state, and of the summaries of the parts. It says which summaries it
/// wants.
pub trait Product: Summaries {
    ghost use Rattle.hprof_devices.specs.declared.health.Health.TheVariants.{Well};
    ghost use Rattle.hprof_stream.specs.declared.summary.PartSummary.{PartSummary};
    ghost use Rattle.hprof_rows.specs.HeapValue.{HeapValue};
    ghost use Rattle.hprof_heap.specs.Heap.{heap_of};
    ghost use Rattle.hprof_engine.specs.declared.heap_fault.HeapFault.{HeapFault};
    ghost use Rattle.hprof_engine.specs.Makes.{EndsWriting};

    // The text is made of parts with these summaries, which state that heap.
    ghost is_text: { Self → List PartSummary → HeapValue → List ℕ → Type 0 };

    // The heap is refused for that reason, before the first byte.
    ghost refuses: { Self → HeapFault → HeapValue → Type 0 };

    // Writing it takes memory.
    ghost takes_memory: { Self → Type 0 };

    /// Writes the product. If the writer fails or memory runs out, the bytes written are the beginning of it.
    fn write<W: Target>(
        &self,
        alloc: Global,
        kept: &Self::Kept,
        heap: &Heap,
        target: &mut W,
    ) -> Result<(), ProductFault>
        requires well { W.health target.old ≡ Well }
        ensures { (summaries : List PartSummary) → Self.holds self.now kept.now summaries
            → EndsWriting W.written W.health (is_text self.now summaries (heap_of heap.now))
            (λ refusal. refuses self.now refusal (heap_of heap.now)) (takes_memory self.now) target.old target.new result };

    // It is one text.
    ghost one_text: { (product : Self) (summaries : List PartSummary) (heap : HeapValue) (one other : List ℕ)
        → is_text product summaries heap one → is_text product summaries heap other → one ≡ other };
}
