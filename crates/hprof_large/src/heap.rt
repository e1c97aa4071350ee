//! The reports on the parts, or on the whole heap.

ghost use Rattle.std.specs.Prelude.{◌≡◌, IsSome};
ghost use Rattle.hprof_devices.specs.declared.health.Health.TheVariants.{Well};
ghost use Rattle.hprof_heap.specs.HeapFacts.{facts_of, size_of};
ghost use Rattle.hprof_histogram.specs.Known.{MadeUpWith};
ghost use Rattle.hprof_lines.specs.Passed.{EndsPassed};
ghost use Rattle.hprof_retained.specs.CachedReferences.{AreCachedReferences};
ghost use Rattle.hprof_ask.specs.Report.{IsHeapReport};

use crate::checked::write_check;
use hprof_by_label::write_retained_over;
use hprof_devices::Target;
use hprof_engine::ProductFault;
use hprof_heap::Heap;
use hprof_histogram::CountedKinds;
use hprof_holders::write_threads_over;
use hprof_passes::{Objects, PassFault};
use hprof_questions::HeapReport;
use hprof_reports::{write_classes_over, write_histogram_over};
use hprof_retained::CachedReferences;
use hprof_stream::PartSummary;
use hprof_suspects::write_suspects_over;
use std::alloc::Global;

/// Writes a report on parts with these summaries, or on the whole heap, whose objects may have been counted by kind.
pub(crate) fn write_heap_report<O: Objects, W: Target>(
    alloc: Global,
    summaries: &[PartSummary],
    heap: &Heap,
    objects: &O,
    references: &mut CachedReferences,
    report: HeapReport,
    known: Option<CountedKinds>,
    target: &mut W,
) -> Result<(), PassFault<ProductFault, O::Fault>>
    requires agree { IsSome known → O.agree objects.now (size_of heap.now) (facts_of heap.now) }
    requires references { AreCachedReferences (O.make_up objects.now (size_of heap.now) (facts_of heap.now))
        (O.agree objects.now (size_of heap.now) (facts_of heap.now)) (size_of heap.now) references.old }
    requires well { W.health target.old ≡ Well }
    ensures ends { EndsPassed (MadeUpWith (O.make_up objects.now (size_of heap.now) (facts_of heap.now)) (size_of heap.now) known)
        (O.agree objects.now (size_of heap.now) (facts_of heap.now)) (O.tells objects.now (size_of heap.now) (facts_of heap.now))
        (λ all. IsHeapReport summaries.now (size_of heap.now) all report) W.written W.health target.old target.new result }
    ensures references { AreCachedReferences (O.make_up objects.now (size_of heap.now) (facts_of heap.now))
        (O.agree objects.now (size_of heap.now) (facts_of heap.now)) (size_of heap.now) references.new }
{
    match report {
        HeapReport::Check => write_check(alloc, summaries, heap, objects, target),
        HeapReport::Histogram => write_histogram_over(alloc, heap, objects, known, target),
        HeapReport::Classes => write_classes_over(alloc, heap, objects, known, target),
        HeapReport::Threads => write_threads_over(alloc, heap, objects, target),
        HeapReport::Suspects => write_suspects_over(alloc, heap, objects, references, target),
        HeapReport::Retained => write_retained_over(alloc, heap, objects, references, target),
    }
}
