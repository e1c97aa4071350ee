//! Reports that are made of passes over objects.

ghost use Rattle.std.specs.Prelude.{◌≡◌, List, IsSome};
ghost use Rattle.hprof_devices.specs.declared.health.Health.TheVariants.{Well};
ghost use Rattle.hprof_stream.specs.declared.summary.PartSummary.{PartSummary};
ghost use Rattle.hprof_heap.specs.Heap.{heap_of};
ghost use Rattle.hprof_heap.specs.HeapFacts.{facts_of, size_of};
ghost use Rattle.hprof_histogram.specs.Known.{MadeUpWith};
ghost use Rattle.hprof_retained.specs.CachedReferences.{AreCachedReferences};
ghost use Rattle.hprof_making.specs.Over.{EndsOver, heap_with};
ghost use Rattle.hprof_ask.specs.Report.{IsReportText, RefusesReport};
ghost use Rattle.hprof_ask.specs.Summarised.{Holds};

use crate::heap::write_heap_report;
use crate::kind::write_kind;
use crate::node::write_node;
use hprof_ask::Reporting;
use hprof_devices::Target;
use hprof_engine::{ProductFault, Summaries};
use hprof_heap::Heap;
use hprof_histogram::CountedKinds;
use hprof_making::PassProduct;
use hprof_passes::{Objects, PassFault};
use hprof_questions::{HeapReport, KindReport, NodeReport, Report};
use hprof_retained::CachedReferences;
use hprof_stream::PartSummary;
use std::alloc::{AllocError, Global};

/// A report that goes through all objects, wherever they are: it needs every one, or a few that it picks.
#[derive(Clone, Copy, Debug, PartialEq, Eq)]
pub struct PassedReport<'a> {
    /// The report.
    pub report: Report<'a>,
}

impl<'a> PassedReport<'a> {
    ghost use Rattle.std.specs.Prelude.{◌≡◌};

    /// Returns the report as a product of parts whose objects are in memory.
    fn reporting(self) -> Reporting<'a>
        ensures { result.report ≡ self.entry.report }
    {
        Reporting {
            report: self.report,
        }
    }
}

/// It wants the summaries that the report wants.
impl Summaries for PassedReport<'_> {
    ghost use Rattle.hprof_ask.specs.Report.{TakesRoom};
    ghost use Rattle.hprof_ask.specs.Summarised.{HasRoom, Holds, no_room_for_none};

    ghost has_room = { λ it. HasRoom it.report };

    ghost holds = { λ it. Holds it.report };

    ghost takes_room = { λ it. TakesRoom it.report };

    type Kept = Vec<PartSummary>;

    fn with_room(&self, alloc: Global, parts: usize) -> Result<Vec<PartSummary>, AllocError> {
        self.reporting().with_room(alloc, parts)
    }

    fn keep(&self, kept: &mut Vec<PartSummary>, summary: PartSummary) {
        self.reporting().keep(kept, summary);
    }

    ghost no_room = { λ it. no_room_for_none it.report };
}

/// Writes a report. The heap has all facts but the objects, whose counts by kind may be known. `kept` are the summaries that the report
/// wants.
///
/// # Errors
///
/// Those of [`PassProduct::write_over`].
pub(crate) fn write_report_over<O: Objects, W: Target>(
    alloc: Global,
    kept: &Vec<PartSummary>,
    heap: &Heap,
    objects: &O,
    references: &mut CachedReferences,
    report: Report<'_>,
    known: Option<CountedKinds>,
    target: &mut W,
) -> Result<(), PassFault<ProductFault, O::Fault>>
    requires references { AreCachedReferences (O.make_up objects.now (size_of heap.now) (facts_of heap.now))
        (O.agree objects.now (size_of heap.now) (facts_of heap.now)) (size_of heap.now) references.old }
    requires agree { IsSome known → O.agree objects.now (size_of heap.now) (facts_of heap.now) }
    requires well { W.health target.old ≡ Well }
    ensures ends { (summaries : List PartSummary) → Holds report.entry kept.now summaries
        → EndsOver (MadeUpWith (O.make_up objects.now (size_of heap.now) (facts_of heap.now)) (size_of heap.now) known)
        (O.agree objects.now (size_of heap.now) (facts_of heap.now)) (O.tells objects.now (size_of heap.now) (facts_of heap.now))
        (λ all. IsReportText report.entry summaries (heap_with (heap_of heap.now) all))
        (λ refusal all. RefusesReport all report.entry refusal) W.written W.health target.old target.new result }
    ensures references { AreCachedReferences (O.make_up objects.now (size_of heap.now) (facts_of heap.now))
        (O.agree objects.now (size_of heap.now) (facts_of heap.now)) (size_of heap.now) references.new }
{
    match report {
        Report::Heap(report) => write_heap_report(
            alloc, kept, heap, objects, references, report, known, target,
        ),
        Report::Kind(report, kinds) => {
            write_kind(alloc, heap, objects, references, report, kinds, target)
        }
        Report::Node(report, node) => {
            write_node(alloc, heap, objects, references, report, node, target)
        }
    }
}

impl PassProduct for PassedReport<'_> {
    ghost use Rattle.hprof_ask.specs.Report.{IsReportText, RefusesReport};

    ghost is_text = { λ it. IsReportText it.report };

    ghost refuses = { λ it refusal heap. RefusesReport heap.facts it.report refusal };

    fn wants_counts(&self) -> bool {
        matches!(
            self.report,
            Report::Heap(HeapReport::Histogram | HeapReport::Classes)
        )
    }

    fn wants_picks(&self) -> bool {
        matches!(
            self.report,
            Report::Heap(HeapReport::Threads | HeapReport::Suspects)
                | Report::Kind(KindReport::Biggest, _)
                | Report::Node(
                    NodeReport::Text
                        | NodeReport::Show
                        | NodeReport::Who
                        | NodeReport::Why
                        | NodeReport::Keeps,
                    _
                )
        )
    }

    fn write_over<O: Objects, W: Target>(
        &self,
        alloc: Global,
        kept: &Vec<PartSummary>,
        heap: &Heap,
        objects: &O,
        known: Option<CountedKinds>,
        target: &mut W,
    ) -> Result<(), PassFault<ProductFault, O::Fault>> {
        let mut references = CachedReferences::for_one();
        write_report_over(
            alloc,
            kept,
            heap,
            objects,
            &mut references,
            self.report,
            known,
            target,
        )
    }
}
