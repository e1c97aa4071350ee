//! The texts of reports that are kept between questions.

ghost use Rattle.std.specs.Prelude.{◌≡◌, List, IfSome};
ghost use Rattle.std.specs.List.{Contains};
ghost use Rattle.hprof_values.specs.declared.ids.IdSize.{IdSize};
ghost use Rattle.hprof_items.specs.FactValue.{FactValue};
ghost use Rattle.hprof_stream.specs.declared.summary.PartSummary.{PartSummary};
ghost use Rattle.hprof_ask.specs.Report.{IsHeapReport};
ghost use Rattle.hprof_large.specs.Texts.{AreReports};
ghost use Rattle.hprof_large.specs.declared.texts.CachedText.{CachedText};

use hprof_questions::HeapReport;
use std::alloc::Global;

/// The text of a report on the whole heap.
#[derive(Drop)]
pub(crate) struct CachedText {
    /// The report.
    pub(crate) report: HeapReport,
    /// Its text.
    pub(crate) bytes: Vec<u8>,
}

/// The texts of reports on the whole heap, each made when it was first asked for.
#[derive(Drop)]
pub(crate) struct CachedTexts {
    pub(crate) texts: Vec<CachedText>,
}

impl CachedTexts {
    /// Returns what is kept before the first question: nothing. It allocates nothing.
    pub(crate) fn new(alloc: Global) -> CachedTexts
        ensures { (summaries : List PartSummary) (ids : IdSize) (facts : List FactValue) → AreReports summaries ids facts result }
    {
        CachedTexts {
            texts: Vec::new(alloc),
        }
    }

    /// Returns the text of a report, if it is kept.
    pub(crate) fn find(&self, report: HeapReport) -> Option<&[u8]>
        ensures { IfSome result (λ bytes. (text : CachedText) × Contains self.now.texts.items text × (text.report ≡ report)
            × (bytes.now ≡ text.bytes.items)) }
    {
        for text in &self.texts {
            if text.report == report {
                return Some(&text.bytes);
            }
        }
        None
    }

    /// Keeps the text of a report. If memory runs out, it is not kept.
    pub(crate) fn keep(&mut self, report: HeapReport, bytes: Vec<u8>)
        ensures { (summaries : List PartSummary) (ids : IdSize) (facts : List FactValue) → AreReports summaries ids facts self.old
            → IsHeapReport summaries ids facts report bytes.items → AreReports summaries ids facts self.new }
    {
        match self.texts.push(CachedText { report, bytes }) {
            Ok(()) | Err(_) => {}
        }
    }
}
