//! Reports as products of parts.

ghost use Rattle.std.specs.Prelude.{◌∷◌, []};

use crate::answerer::Answerer;
use crate::cache::Cache;
use hprof_devices::Target;
use hprof_engine::{Product, ProductFault, Summaries};
use hprof_heap::Heap;
use hprof_questions::{HeapReport, Report};
use hprof_stream::PartSummary;
use std::alloc::{AllocError, Global};

/// A report as a product of parts.
#[derive(Clone, Copy, Debug)]
pub struct Reporting<'a> {
    /// The report.
    pub report: Report<'a>,
}

/// The report `check` wants the summaries of all parts, and the others want none.
impl Summaries for Reporting<'_> {
    ghost use Rattle.hprof_ask.specs.Report.{TakesRoom};
    ghost use Rattle.hprof_ask.specs.Summarised.{HasRoom, Holds, no_room_for_none};

    ghost has_room = { λ it. HasRoom it.report };

    ghost holds = { λ it. Holds it.report };

    ghost takes_room = { λ it. TakesRoom it.report };

    type Kept = Vec<PartSummary>;

    fn with_room(&self, alloc: Global, parts: usize) -> Result<Vec<PartSummary>, AllocError> {
        match self.report {
            Report::Heap(HeapReport::Check) => Vec::with_capacity(alloc, parts),
            _ => Ok(Vec::new(alloc)),
        }
    }

    fn keep(&self, kept: &mut Vec<PartSummary>, summary: PartSummary) {
        if let Report::Heap(HeapReport::Check) = self.report {
            kept.push_reserved(summary);
        }
    }

    ghost no_room = { λ it. no_room_for_none it.report };
}

/// A command asks once, as a dialogue asks many times.
impl Product for Reporting<'_> {
    ghost use Rattle.hprof_ask.specs.OneReport.{one_report};
    ghost use Rattle.hprof_ask.specs.Report.{IsReportText, RefusesReport, TakesMemory};

    ghost is_text = { λ it. IsReportText it.report };

    ghost refuses = { λ it refusal heap. RefusesReport heap.facts it.report refusal };

    ghost takes_memory = { λ it. TakesMemory it.report };

    fn write<W: Target>(
        &self,
        alloc: Global,
        kept: &Vec<PartSummary>,
        heap: &Heap,
        target: &mut W,
    ) -> Result<(), ProductFault> {
        let answerer = Answerer {
            heap,
            summaries: kept,
        };
        answerer.write(alloc, &mut Cache::for_one(), self.report, target)
    }

    ghost one_text = { λ it summaries heap. one_report summaries heap.ids heap.facts it.report };
}
