//! The reports on the parts and on the whole heap.

ghost use Rattle.std.specs.Prelude.{◌≡◌, ℕ, List, Err};
ghost use Rattle.hprof_devices.specs.declared.health.Health.TheVariants.{Well};
ghost use Rattle.hprof_heap.specs.HeapFacts.{facts_of, size_of};
ghost use Rattle.hprof_reports.specs.Check.{IsCheck};
ghost use Rattle.hprof_reports.specs.ClassesText.{IsClassesText};
ghost use Rattle.hprof_reports.specs.HistogramText.{IsHistogramText};
ghost use Rattle.hprof_lines.specs.Stopping.{LeavesTarget, WritesText};
ghost use Rattle.hprof_by_label.specs.RetainedText.{IsRetainedText};
ghost use Rattle.hprof_holders.specs.ThreadsText.{IsThreadsText};
ghost use Rattle.hprof_suspects.specs.SuspectsText.{IsSuspectsText};
ghost use Rattle.hprof_ask.specs.Cache.{IsCacheOf};
ghost use Rattle.hprof_ask.specs.Report.{IsHeapReport, TakesMemory};

use crate::answerer::Answerer;
use crate::cache::{Cache, cached_or_made, retained_or_made};
use crate::survey::view_of;
use hprof_by_label::write_retained;
use hprof_devices::{Target, push_all};
use hprof_engine::ProductFault;
use hprof_heap::holds_of_heap;
use hprof_holders::write_threads;
use hprof_questions::{HeapReport, Report};
use hprof_reports::{write_check, write_classes, write_histogram};
use hprof_suspects::write_suspects;
use std::alloc::Global;

/// Writes bytes. If the writer fails, the bytes written are the beginning of them.
fn write_bytes<W: Target>(bytes: &[u8], target: &mut W) -> Result<(), ProductFault>
    requires { W.health target.old ≡ Well }
    ensures bytes { WritesText (W.written target.old) (W.written target.new) result bytes.now }
    ensures health { LeavesTarget result (W.health target.new) }
{
    match push_all(bytes, target) {
        Ok(()) => Ok(()),
        Err(fault) => Err(ProductFault::Write(fault)),
    }
}

impl<'a> Answerer<'a> {
    /// Writes the report `check`.
    fn write_check<W: Target>(&self, target: &mut W) -> Result<(), ProductFault>
        requires { W.health target.old ≡ Well }
        ensures bytes { (text : List ℕ) × IsCheck self.now.summaries.now (facts_of self.now.heap.now) text
            × WritesText (W.written target.old) (W.written target.new) result text }
        ensures health { LeavesTarget result (W.health target.new) }
        ensures memory { result ≡ Err ProductFault.OutOfMemory → ⊥ }
    {
        match write_check(self.summaries, self.heap, target) {
            Ok(()) => Ok(()),
            Err(fault) => Err(ProductFault::Write(fault)),
        }
    }

    /// Writes the report `histo`, for one of many reports from the text that is kept.
    fn write_histogram<W: Target>(
        &self,
        alloc: Global,
        cache: &mut Cache,
        target: &mut W,
    ) -> Result<(), ProductFault>
        requires well { W.health target.old ≡ Well }
        requires kept { IsCacheOf (size_of self.now.heap.now) (facts_of self.now.heap.now) cache.old }
        ensures bytes { (text : List ℕ) × IsHistogramText (size_of self.now.heap.now) (facts_of self.now.heap.now) text
            × WritesText (W.written target.old) (W.written target.new) result text }
        ensures health { LeavesTarget result (W.health target.new) }
        ensures kept { IsCacheOf (size_of self.now.heap.now) (facts_of self.now.heap.now) cache.new }
    {
        if !cache.is_for_many {
            return write_histogram(alloc, self.heap, target);
        }
        holds_of_heap(self.heap);
        let text = cached_or_made(alloc, self.heap, cache.histogram.take())?;
        let outcome = write_bytes(&text.bytes, target);
        cache.histogram = Some(text);
        outcome
    }

    /// Writes the report `classes`, for one of many reports from the text that is kept.
    fn write_classes<W: Target>(
        &self,
        alloc: Global,
        cache: &mut Cache,
        target: &mut W,
    ) -> Result<(), ProductFault>
        requires well { W.health target.old ≡ Well }
        requires kept { IsCacheOf (size_of self.now.heap.now) (facts_of self.now.heap.now) cache.old }
        ensures bytes { (text : List ℕ) × IsClassesText (size_of self.now.heap.now) (facts_of self.now.heap.now) text
            × WritesText (W.written target.old) (W.written target.new) result text }
        ensures health { LeavesTarget result (W.health target.new) }
        ensures kept { IsCacheOf (size_of self.now.heap.now) (facts_of self.now.heap.now) cache.new }
    {
        if !cache.is_for_many {
            return write_classes(alloc, self.heap, target);
        }
        holds_of_heap(self.heap);
        let text = cached_or_made(alloc, self.heap, cache.classes.take())?;
        let outcome = write_bytes(&text.bytes, target);
        cache.classes = Some(text);
        outcome
    }

    /// Writes the report `threads`.
    fn write_threads<W: Target>(
        &self,
        alloc: Global,
        cache: &mut Cache,
        target: &mut W,
    ) -> Result<(), ProductFault>
        requires well { W.health target.old ≡ Well }
        requires kept { IsCacheOf (size_of self.now.heap.now) (facts_of self.now.heap.now) cache.old }
        ensures bytes { (text : List ℕ) × IsThreadsText (size_of self.now.heap.now) (facts_of self.now.heap.now) text
            × WritesText (W.written target.old) (W.written target.new) result text }
        ensures health { LeavesTarget result (W.health target.new) }
        ensures kept { IsCacheOf (size_of self.now.heap.now) (facts_of self.now.heap.now) cache.new }
    {
        holds_of_heap(self.heap);
        let survey = cached_or_made(alloc, self.heap, cache.survey.take())?;
        let outcome = write_threads(alloc, self.heap, &survey.threads, &survey.classes, target);
        cache.survey = Some(survey);
        outcome
    }

    /// Writes the report `suspects`.
    fn write_suspects<W: Target>(
        &self,
        alloc: Global,
        cache: &mut Cache,
        target: &mut W,
    ) -> Result<(), ProductFault>
        requires well { W.health target.old ≡ Well }
        requires kept { IsCacheOf (size_of self.now.heap.now) (facts_of self.now.heap.now) cache.old }
        ensures bytes { (text : List ℕ) × IsSuspectsText (size_of self.now.heap.now) (facts_of self.now.heap.now) text
            × WritesText (W.written target.old) (W.written target.new) result text }
        ensures health { LeavesTarget result (W.health target.new) }
        ensures kept { IsCacheOf (size_of self.now.heap.now) (facts_of self.now.heap.now) cache.new }
    {
        holds_of_heap(self.heap);
        let survey = cached_or_made(alloc, self.heap, cache.survey.take())?;
        let references = cached_or_made(alloc, self.heap, cache.references.take())?;
        let retained = retained_or_made(alloc, self.heap, &references.weak, cache.retained.take())?;
        let outcome = write_suspects(
            alloc,
            self.heap,
            &survey.classes,
            &references.weak,
            &retained,
            &mut cache.weakly,
            target,
        );
        cache.survey = Some(survey);
        cache.references = Some(references);
        cache.retained = Some(retained);
        outcome
    }

    /// Writes the report `retained`.
    fn write_retained<W: Target>(
        &self,
        alloc: Global,
        cache: &mut Cache,
        target: &mut W,
    ) -> Result<(), ProductFault>
        requires well { W.health target.old ≡ Well }
        requires kept { IsCacheOf (size_of self.now.heap.now) (facts_of self.now.heap.now) cache.old }
        ensures bytes { (text : List ℕ) × IsRetainedText (size_of self.now.heap.now) (facts_of self.now.heap.now) text
            × WritesText (W.written target.old) (W.written target.new) result text }
        ensures health { LeavesTarget result (W.health target.new) }
        ensures kept { IsCacheOf (size_of self.now.heap.now) (facts_of self.now.heap.now) cache.new }
    {
        holds_of_heap(self.heap);
        let survey = cached_or_made(alloc, self.heap, cache.survey.take())?;
        let references = cached_or_made(alloc, self.heap, cache.references.take())?;
        let retained = retained_or_made(alloc, self.heap, &references.weak, cache.retained.take())?;
        let outcome = write_retained(alloc, self.heap, &survey.classes, &retained, target);
        cache.survey = Some(survey);
        cache.references = Some(references);
        cache.retained = Some(retained);
        outcome
    }

    /// Writes a report on the parts, or on the whole heap.
    pub(crate) fn write_heap_report<W: Target>(
        &self,
        alloc: Global,
        cache: &mut Cache,
        report: HeapReport,
        target: &mut W,
    ) -> Result<(), ProductFault>
        requires well { W.health target.old ≡ Well }
        requires kept { IsCacheOf (size_of self.now.heap.now) (facts_of self.now.heap.now) cache.old }
        ensures bytes { (text : List ℕ)
            × IsHeapReport self.now.summaries.now (size_of self.now.heap.now) (facts_of self.now.heap.now) report text
            × WritesText (W.written target.old) (W.written target.new) result text }
        ensures health { LeavesTarget result (W.health target.new) }
        ensures memory { result ≡ Err ProductFault.OutOfMemory → TakesMemory (Report.Heap report) }
        ensures kept { IsCacheOf (size_of self.now.heap.now) (facts_of self.now.heap.now) cache.new }
    {
        match report {
            HeapReport::Check => self.write_check(target),
            HeapReport::Histogram => self.write_histogram(alloc, cache, target),
            HeapReport::Classes => self.write_classes(alloc, cache, target),
            HeapReport::Threads => self.write_threads(alloc, cache, target),
            HeapReport::Suspects => self.write_suspects(alloc, cache, target),
            HeapReport::Retained => self.write_retained(alloc, cache, target),
        }
    }
}
