//! Writing a product of the objects of parts.

ghost use Rattle.std.specs.Prelude.{◌≡◌, List, IsSome};
ghost use Rattle.hprof_devices.specs.declared.health.Health.TheVariants.{Well};
ghost use Rattle.hprof_stream.specs.declared.summary.PartSummary.{PartSummary};
ghost use Rattle.hprof_heap.specs.Heap.{heap_of};
ghost use Rattle.hprof_heap.specs.HeapFacts.{facts_of, size_of};
ghost use Rattle.hprof_histogram.specs.Known.{MadeUpWith};
ghost use Rattle.hprof_stored.specs.InParts.{HaveUnion, MakeUp, TellsPass};
ghost use Rattle.hprof_making.specs.Over.{EndsOver, heap_with};

use crate::pass_product::PassProduct;
use hprof_devices::Target;
use hprof_engine::ProductFault;
use hprof_heap::Heap;
use hprof_histogram::CountedKinds;
use hprof_parts::Parts;
use hprof_passes::PassFault;
use hprof_runs::Scratch;
use hprof_stored::{Agreed, InParts, InPartsFault};
use std::alloc::Global;

/// Writes the product of the objects of parts. If it wants to pick some of them, all are gone through once before, so that they are known
/// to agree, and picking reads only a few.
///
/// # Errors
///
/// Those of [`PassProduct::write_over`].
pub(crate) fn write_in_parts<M: PassProduct, S: Scratch + Drop, P: Parts, W: Target>(
    alloc: Global,
    product: &M,
    kept: &M::Kept,
    heap: &Heap,
    objects: InParts<'_, S, P>,
    known: Option<CountedKinds>,
    target: &mut W,
) -> Result<(), PassFault<ProductFault, InPartsFault>>
    requires well { W.health target.old ≡ Well }
    requires agree { IsSome known → HaveUnion S.written S.health P.bytes objects }
    ensures { (summaries : List PartSummary) → M.holds product.now kept.now summaries
        → EndsOver (MadeUpWith (MakeUp S.written S.health P.bytes objects.entry (size_of heap.now) (facts_of heap.now)) (size_of heap.now)
        known) (HaveUnion S.written S.health P.bytes objects.entry)
        (TellsPass S.written S.health P.bytes S.unreadable objects.entry (size_of heap.now) (facts_of heap.now))
        (λ all. M.is_text product.now summaries (heap_with (heap_of heap.now) all))
        (λ refusal all. M.refuses product.now refusal (heap_with (heap_of heap.now) all)) W.written W.health target.old target.new result }
{
    if !product.wants_picks() {
        return product.write_over(alloc, kept, heap, &objects, known, target);
    }
    let agreed = match Agreed::new(alloc, objects) {
        Ok(agreed) => agreed,
        Err(fault) => return Err(PassFault::Lost(fault)),
    };
    product.write_over(alloc, kept, heap, &agreed, known, target)
}
