//! Answers to questions about a heap whose objects are gone through anew for each answer.

ghost use Rattle.std.specs.Prelude.{◌≡◌, ℕ, List, IfErr, IfOk};
ghost use Rattle.hprof_devices.specs.declared.health.Health.TheVariants.{Well};
ghost use Rattle.hprof_rows.specs.HeapValue.{HeapValue};
ghost use Rattle.hprof_heap.specs.HeapFacts.{facts_of, size_of};
ghost use Rattle.hprof_passes.specs.Passing.{IfLost};
ghost use Rattle.hprof_retained.specs.CachedReferences.{AreCachedReferences};
ghost use Rattle.hprof_questions.specs.Answering.{LeavesWriter, TellsLoss, WritesAnswer};
ghost use Rattle.hprof_ask.specs.HeapAnswers.{IsHeapAnswer, IsReply, IsReportReply};
ghost use Rattle.hprof_ask.specs.Report.{IsHeapReport, IsReport, RefusesReport};
ghost use Rattle.hprof_making.specs.Over.{EndsOver};
ghost use Rattle.hprof_large.specs.Stops.{IsLostBy};
ghost use Rattle.hprof_large.specs.Texts.{AreReports};
ghost use Rattle.hprof_large.specs.Whole.{IsWholeHeap};

use crate::cached_answers::CachedAnswers;
use crate::heap::write_heap_report;
use crate::passed_report::write_report_over;
use crate::stops::{answer_of, stop_of_pass_fault};
use hprof_ask::{behind_reply, write_reply_without_report};
use hprof_devices::{Device, Target, push_all};
use hprof_engine::ProductFault;
use hprof_heap::Heap;
use hprof_lines::write_str;
use hprof_passes::{Objects, PassFault};
use hprof_questions::{Answers, DialogueFault, HeapReport, Question, Report};
use hprof_retained::CachedReferences;
use hprof_stored::InPartsFault;
use hprof_stream::PartSummary;
use std::alloc::{AllocError, Global};

/// A heap whose objects are gone through anew for each answer, and the summaries of its parts.
#[derive(Drop)]
pub struct PassedAnswers<'a, O> {
    /// All facts of the heap but objects.
    pub heap: &'a Heap,
    /// The objects.
    pub objects: O,
    /// The summaries of the parts.
    pub summaries: &'a Vec<PartSummary>,
}

/// Writes bytes. If the writer fails, the bytes written are the beginning of them.
fn write_bytes<W: Target>(bytes: &[u8], target: &mut W) -> Result<(), DialogueFault>
    requires { W.health target.old ≡ Well }
    ensures bytes { WritesAnswer (W.written target.old) (W.written target.new) result bytes.now }
    ensures health { LeavesWriter result (W.health target.new) }
    ensures lost { TellsLoss (λ loss. ⊥) result }
{
    match push_all(bytes, target) {
        Ok(()) => Ok(()),
        Err(fault) => Err(DialogueFault::Write(fault)),
    }
}

impl<O: Objects<Fault = InPartsFault> + Drop> PassedAnswers<'_, O> {
    /// Writes a report on a class, an object, or objects, as [`PassedReport`](crate::PassedReport) does.
    fn write_by_passes<W: Target>(
        &self,
        alloc: Global,
        references: &mut CachedReferences,
        report: Report<'_>,
        target: &mut W,
    ) -> Result<(), PassFault<ProductFault, InPartsFault>>
        requires references { AreCachedReferences
            (O.make_up self.now.objects (size_of self.now.heap.now) (facts_of self.now.heap.now))
            (O.agree self.now.objects (size_of self.now.heap.now) (facts_of self.now.heap.now)) (size_of self.now.heap.now) references.old }
        requires well { W.health target.old ≡ Well }
        ensures ends { EndsOver
            (O.make_up self.now.objects (size_of self.now.heap.now) (facts_of self.now.heap.now))
            (O.agree self.now.objects (size_of self.now.heap.now) (facts_of self.now.heap.now))
            (O.tells self.now.objects (size_of self.now.heap.now) (facts_of self.now.heap.now))
            (λ all. IsReport self.now.summaries.now.items (size_of self.now.heap.now) all report.entry)
            (λ refusal all. RefusesReport all report.entry refusal) W.written W.health target.old target.new result }
        ensures references { AreCachedReferences
            (O.make_up self.now.objects (size_of self.now.heap.now) (facts_of self.now.heap.now))
            (O.agree self.now.objects (size_of self.now.heap.now) (facts_of self.now.heap.now)) (size_of self.now.heap.now) references.new }
    {
        write_report_over(
            alloc,
            self.summaries,
            self.heap,
            &self.objects,
            references,
            report,
            None,
            target,
        )
    }

    /// Writes the reply to a question for a report: the report, or that no class has the name that it is on.
    fn write_report<W: Target>(
        &self,
        alloc: Global,
        references: &mut CachedReferences,
        report: Report<'_>,
        target: &mut W,
    ) -> Result<(), DialogueFault>
        requires references { AreCachedReferences
            (O.make_up self.now.objects (size_of self.now.heap.now) (facts_of self.now.heap.now))
            (O.agree self.now.objects (size_of self.now.heap.now) (facts_of self.now.heap.now)) (size_of self.now.heap.now) references.old }
        requires well { W.health target.old ≡ Well }
        ensures bytes { (heap : HeapValue) → IsWholeHeap self.now.heap.now (O.make_up self.now.objects) heap
            → (text : List ℕ) × IsReportReply self.now.summaries.now.items heap.ids heap.facts report.entry text
            × WritesAnswer (W.written target.old) (W.written target.new) result text }
        ensures health { LeavesWriter result (W.health target.new) }
        ensures lost { TellsLoss (IsLostBy (O.tells self.now.objects (size_of self.now.heap.now) (facts_of self.now.heap.now))) result }
        ensures references { AreCachedReferences
            (O.make_up self.now.objects (size_of self.now.heap.now) (facts_of self.now.heap.now))
            (O.agree self.now.objects (size_of self.now.heap.now) (facts_of self.now.heap.now)) (size_of self.now.heap.now) references.new }
    {
        match self.write_by_passes(alloc, references, report, target) {
            Ok(()) => Ok(()),
            Err(PassFault::Lost(fault)) => Err(stop_of_pass_fault(fault)),
            Err(PassFault::Sink(ProductFault::Refused(_))) => answer_of(write_reply_without_report(
                Question::Report(report),
                target,
            )),
            Err(PassFault::Sink(ProductFault::Write(fault))) => Err(DialogueFault::Write(fault)),
            Err(PassFault::Sink(ProductFault::OutOfMemory)) => Err(DialogueFault::OutOfMemory),
        }
    }

    /// Makes the text of a report on the whole heap, in memory.
    fn make_text(
        &self,
        alloc: Global,
        references: &mut CachedReferences,
        report: HeapReport,
    ) -> Result<Vec<u8>, PassFault<AllocError, InPartsFault>>
        requires { AreCachedReferences
            (O.make_up self.now.objects (size_of self.now.heap.now) (facts_of self.now.heap.now))
            (O.agree self.now.objects (size_of self.now.heap.now) (facts_of self.now.heap.now)) (size_of self.now.heap.now) references.old }
        ensures text { IfOk result (λ bytes. (heap : HeapValue)
            → IsWholeHeap self.now.heap.now (O.make_up self.now.objects) heap
            → IsHeapReport self.now.summaries.now.items heap.ids heap.facts report bytes.items) }
        ensures lost { IfErr result (IfLost (O.tells self.now.objects (size_of self.now.heap.now) (facts_of self.now.heap.now))) }
        ensures references { AreCachedReferences
            (O.make_up self.now.objects (size_of self.now.heap.now) (facts_of self.now.heap.now))
            (O.agree self.now.objects (size_of self.now.heap.now) (facts_of self.now.heap.now)) (size_of self.now.heap.now) references.new }
    {
        let mut target = Device::new(Vec::new(alloc));
        match write_heap_report(
            alloc,
            self.summaries,
            self.heap,
            &self.objects,
            references,
            report,
            None,
            &mut target,
        ) {
            Ok(()) => Ok(target.into_inner()),
            Err(PassFault::Lost(fault)) => Err(PassFault::Lost(fault)),
            // A list fails to take a byte only if memory runs out.
            Err(PassFault::Sink(_)) => Err(PassFault::Sink(AllocError)),
        }
    }

    /// Writes a report on the whole heap, from the text that is kept, or makes the text and keeps it.
    fn write_cached<W: Target>(
        &self,
        alloc: Global,
        kept: &mut CachedAnswers,
        report: HeapReport,
        target: &mut W,
    ) -> Result<(), DialogueFault>
        requires well { W.health target.old ≡ Well }
        requires texts { (heap : HeapValue) → IsWholeHeap self.now.heap.now (O.make_up self.now.objects) heap
            → AreReports self.now.summaries.now.items heap.ids heap.facts kept.old.texts }
        requires references { AreCachedReferences
            (O.make_up self.now.objects (size_of self.now.heap.now) (facts_of self.now.heap.now))
            (O.agree self.now.objects (size_of self.now.heap.now) (facts_of self.now.heap.now)) (size_of self.now.heap.now)
            kept.old.references }
        ensures bytes { (heap : HeapValue) → IsWholeHeap self.now.heap.now (O.make_up self.now.objects) heap
            → (text : List ℕ) × IsHeapReport self.now.summaries.now.items heap.ids heap.facts report text
            × WritesAnswer (W.written target.old) (W.written target.new) result text }
        ensures health { LeavesWriter result (W.health target.new) }
        ensures lost { TellsLoss (IsLostBy (O.tells self.now.objects (size_of self.now.heap.now) (facts_of self.now.heap.now))) result }
        ensures texts { (heap : HeapValue) → IsWholeHeap self.now.heap.now (O.make_up self.now.objects) heap
            → AreReports self.now.summaries.now.items heap.ids heap.facts kept.new.texts }
        ensures references { AreCachedReferences
            (O.make_up self.now.objects (size_of self.now.heap.now) (facts_of self.now.heap.now))
            (O.agree self.now.objects (size_of self.now.heap.now) (facts_of self.now.heap.now)) (size_of self.now.heap.now)
            kept.new.references }
    {
        if let Some(bytes) = kept.texts.find(report) {
            return write_bytes(bytes, target);
        }
        let bytes = match self.make_text(alloc, &mut kept.references, report) {
            Ok(bytes) => bytes,
            Err(PassFault::Lost(fault)) => return Err(stop_of_pass_fault(fault)),
            Err(PassFault::Sink(_)) => return Err(DialogueFault::OutOfMemory),
        };
        let outcome = write_bytes(&bytes, target);
        kept.texts.keep(report, bytes);
        outcome
    }

    /// Writes the reply to a question, without what stands behind it.
    fn write_reply<W: Target>(
        &self,
        alloc: Global,
        kept: &mut CachedAnswers,
        question: Question<'_>,
        target: &mut W,
    ) -> Result<(), DialogueFault>
        requires well { W.health target.old ≡ Well }
        requires texts { (heap : HeapValue) → IsWholeHeap self.now.heap.now (O.make_up self.now.objects) heap
            → AreReports self.now.summaries.now.items heap.ids heap.facts kept.old.texts }
        requires references { AreCachedReferences
            (O.make_up self.now.objects (size_of self.now.heap.now) (facts_of self.now.heap.now))
            (O.agree self.now.objects (size_of self.now.heap.now) (facts_of self.now.heap.now)) (size_of self.now.heap.now)
            kept.old.references }
        ensures bytes { (heap : HeapValue) → IsWholeHeap self.now.heap.now (O.make_up self.now.objects) heap
            → (text : List ℕ) × IsReply self.now.summaries.now.items heap.ids heap.facts question.entry text
            × WritesAnswer (W.written target.old) (W.written target.new) result text }
        ensures health { LeavesWriter result (W.health target.new) }
        ensures lost { TellsLoss (IsLostBy (O.tells self.now.objects (size_of self.now.heap.now) (facts_of self.now.heap.now))) result }
        ensures texts { (heap : HeapValue) → IsWholeHeap self.now.heap.now (O.make_up self.now.objects) heap
            → AreReports self.now.summaries.now.items heap.ids heap.facts kept.new.texts }
        ensures references { AreCachedReferences
            (O.make_up self.now.objects (size_of self.now.heap.now) (facts_of self.now.heap.now))
            (O.agree self.now.objects (size_of self.now.heap.now) (facts_of self.now.heap.now)) (size_of self.now.heap.now)
            kept.new.references }
    {
        match question {
            Question::Report(Report::Heap(report)) => self.write_cached(
                alloc, kept, report, target,
            ),
            Question::Report(report) => {
                self.write_report(alloc, &mut kept.references, report, target)
            },
            _ => answer_of(write_reply_without_report(question, target)),
        }
    }
}

impl<O: Objects<Fault = InPartsFault> + Drop> Answers for PassedAnswers<'_, O> {
    ghost use Rattle.hprof_heap.specs.HeapFacts.{facts_of, size_of};
    ghost use Rattle.hprof_rows.specs.HeapValue.{HeapValue};
    ghost use Rattle.hprof_retained.specs.CachedReferences.{AreCachedReferences};
    ghost use Rattle.hprof_ask.specs.HeapAnswers.{IsHeapAnswer};
    ghost use Rattle.hprof_ask.specs.OneHeapAnswer.{one_heap_answer};
    ghost use Rattle.hprof_large.specs.SomeAnswer.{some_answer_of_whole};
    ghost use Rattle.hprof_large.specs.Stops.{IsLostBy};
    ghost use Rattle.hprof_large.specs.Texts.{AreReports};
    ghost use Rattle.hprof_large.specs.Whole.{IsWholeHeap};

    ghost about = { λ it. IsWholeHeap it.heap.now (O.make_up it.objects) };

    ghost is_answer = { λ it heap. IsHeapAnswer it.summaries.now.items heap.ids heap.facts };

    ghost loses = { λ it. IsLostBy (O.tells it.objects (size_of it.heap.now) (facts_of it.heap.now)) };

    ghost keeps = { λ it kept. ((heap : HeapValue) → IsWholeHeap it.heap.now (O.make_up it.objects) heap
        → AreReports it.summaries.now.items heap.ids heap.facts kept.texts)
        × AreCachedReferences (O.make_up it.objects (size_of it.heap.now) (facts_of it.heap.now))
        (O.agree it.objects (size_of it.heap.now) (facts_of it.heap.now)) (size_of it.heap.now) kept.references };

    type Cache = CachedAnswers;

    fn answer<W: Target>(
        &self,
        alloc: Global,
        kept: &mut CachedAnswers,
        question: Question<'_>,
        target: &mut W,
    ) -> Result<(), DialogueFault> {
        match self.write_reply(alloc, kept, question, target) {
            Ok(()) => answer_of(write_str(behind_reply(question), target)),
            Err(stop) => Err(stop),
        }
    }

    ghost some_answer = { λ it heap is. some_answer_of_whole it.summaries.now.items it.heap.now
        (O.make_up it.objects) (O.whole it.objects) heap is };

    ghost one_answer = { λ it heap is. one_heap_answer it.summaries.now.items heap.ids heap.facts };
}
