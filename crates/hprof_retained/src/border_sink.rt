//! The border of what strong references reach, by a pass over objects.

ghost use Rattle.std.specs.Prelude.{◌≡◌, ◌↔◌, ℕ, [], Contains, IfOk};
ghost use Rattle.std.specs.List.Sorted.{IsStrictlyIncreasing};
ghost use Rattle.hprof_edges.specs.LeftOut.{fields_in};
ghost use Rattle.hprof_heap.specs.HeapFacts.{facts_of, size_of};
ghost use Rattle.hprof_passes.specs.Finding.{Finds};
ghost use Rattle.hprof_reach.specs.Nodes.{IsClassNode};
ghost use Rattle.hprof_retained.specs.Border.{AreAround};
ghost use Rattle.hprof_retained.specs.Tree.{place_of};

use crate::border::{Border, push_classes};
use crate::retained::Retained;
use hprof_edges::LeftOut;
use hprof_heap::{Heap, to_object_dump};
use hprof_items::Fact;
use hprof_passes::{ObjectSink, Objects, PassFault};
use hprof_reach::sort_once;
use hprof_values::IdSize;
use std::alloc::{AllocError, Global};

/// The nodes on both sides of the border, as the objects come.
#[derive(Drop)]
pub(crate) struct BorderSink<'w> {
    /// The tree of dominators by strong references.
    retained: &'w Retained,
    border: Border<'w>,
}

/// Takes each object to its side of the border. The fault is want of memory.
impl ObjectSink for BorderSink<'_> {
    ghost use Rattle.std.specs.Prelude.{⊤};
    ghost use Rattle.hprof_retained.specs.BorderTaken.{TakesBorder};

    ghost takes = { λ old ids object new. TakesBorder object old new };

    ghost refuses = { λ old ids object fault new. ⊤ };

    type Fault = AllocError;

    #[inline(always)]
    fn take(&mut self, _ids: IdSize, object: &Fact<'_>) -> Result<(), AllocError> {
        if let Some(dump) = to_object_dump(object) {
            self.border.see(self.retained, &dump)?;
        }
        Ok(())
    }
}

/// Returns a sink that has the classes without a place in the tree. If memory runs out, the answer is `AllocError`.
fn begun<'w>(
    alloc: Global,
    heap: &Heap,
    weak: &'w LeftOut,
    retained: &'w Retained,
) -> Result<BorderSink<'w>, AllocError>
    ensures retained { IfOk result (λ sink. sink.retained.now ≡ retained.now) }
    ensures weak { IfOk result (λ sink. sink.border.weak.now ≡ weak.now) }
    ensures others { IfOk result (λ sink. (node : ℕ) → Contains sink.border.others.items node
        ↔ (IsClassNode (facts_of heap.now) node × (place_of retained.now node ≡ 0))) }
    ensures sources { IfOk result (λ sink. sink.border.sources.items ≡ []) }
{
    let mut border = Border::new(alloc, weak);
    push_classes(heap, retained, &mut border.others)?;
    Ok(BorderSink { retained, border })
}

/// Returns the nodes on both sides of the border that objects make up with a heap; those outside are sorted. `weak` are the weak fields of
/// the heap's classes. The heap has all facts but objects.
///
/// The objects are gone through once.
///
/// # Errors
///
/// - `Sink`: memory ran out.
/// - `Lost`: the objects cannot be gone through.
pub(crate) fn border_over<'w, O: Objects>(
    alloc: Global,
    heap: &Heap,
    objects: &O,
    weak: &'w LeftOut,
    retained: &'w Retained,
) -> Result<Border<'w>, PassFault<AllocError, O::Fault>>
    ensures ascend { IfOk result (λ border. IsStrictlyIncreasing border.others.items) }
    ensures around { Finds (O.make_up objects.now (size_of heap.now) (facts_of heap.now))
        (O.agree objects.now (size_of heap.now) (facts_of heap.now)) (O.tells objects.now (size_of heap.now) (facts_of heap.now))
        (λ all border. AreAround all (fields_in weak.now) retained.now border.others.items border.sources.items) result }
{
    let mut sink = match begun(alloc, heap, weak, retained) {
        Ok(sink) => sink,
        Err(fault) => return Err(PassFault::Sink(fault)),
    };
    match objects.pass(alloc, heap, &mut sink) {
        Ok(()) => {}
        Err(stop) => return Err(stop),
    }
    let mut border = sink.border;
    match sort_once(&mut border.others) {
        Ok(()) => Ok(border),
        Err(fault) => Err(PassFault::Sink(fault)),
    }
}
