//! The answerer of reports, over a heap and the summaries of its parts.

ghost use Rattle.std.specs.Prelude.{◌≡◌, ℕ, List};
ghost use Rattle.hprof_devices.specs.declared.health.Health.TheVariants.{Well};
ghost use Rattle.hprof_engine.specs.Makes.{EndsWriting};
ghost use Rattle.hprof_heap.specs.HeapFacts.{facts_of, size_of};
ghost use Rattle.hprof_lines.specs.Stopping.{LeavesTarget, WritesText};
ghost use Rattle.hprof_keeps.specs.BiggestText.{IsBiggestText};
ghost use Rattle.hprof_keeps.specs.Chosen.{ClassesAscend, IsChosen};
ghost use Rattle.hprof_ask.specs.Cache.{IsCacheOf};
ghost use Rattle.hprof_ask.specs.Report.{IsKindReport, IsReport, RefusesReport, TakesMemory};

use crate::cache::{Cache, cached_or_made, retained_or_made};
use hprof_devices::Target;
use hprof_engine::ProductFault;
use hprof_heap::{Heap, holds_of_heap};
use hprof_histogram::Kind;
use hprof_keeps::{Choice, write_biggest};
use hprof_lines::write_objects;
use hprof_questions::{KindReport, Kinds, Node, Report};
use hprof_stream::PartSummary;
use std::alloc::Global;

/// Answers reports over a heap and the summaries of its parts.
#[derive(Clone, Copy)]
pub struct Answerer<'a> {
    /// The heap.
    pub heap: &'a Heap,
    /// The summaries of the parts, in order.
    pub summaries: &'a [PartSummary],
}

impl<'a> Answerer<'a> {
    /// Writes the report `biggest` on a choice of classes and objects.
    pub(crate) fn write_biggest<W: Target>(
        &self,
        alloc: Global,
        cache: &mut Cache,
        choice: Choice<'_>,
        target: &mut W,
    ) -> Result<(), ProductFault>
        requires well { W.health target.old ≡ Well }
        requires ascend { ClassesAscend choice }
        requires kept { IsCacheOf (size_of self.now.heap.now) (facts_of self.now.heap.now) cache.old }
        ensures bytes { (text : List ℕ)
            × IsBiggestText (size_of self.now.heap.now) (facts_of self.now.heap.now)
            (IsChosen (facts_of self.now.heap.now) choice.entry) text
            × WritesText (W.written target.old) (W.written target.new) result text }
        ensures health { LeavesTarget result (W.health target.new) }
        ensures kept { IsCacheOf (size_of self.now.heap.now) (facts_of self.now.heap.now) cache.new }
    {
        holds_of_heap(self.heap);
        let survey = cached_or_made(alloc, self.heap, cache.survey.take())?;
        let references = cached_or_made(alloc, self.heap, cache.references.take())?;
        let retained = retained_or_made(alloc, self.heap, &references.weak, cache.retained.take())?;
        let outcome = write_biggest(alloc, self.heap, &survey.classes, &retained, choice, target);
        cache.survey = Some(survey);
        cache.references = Some(references);
        cache.retained = Some(retained);
        outcome
    }

    /// Writes a report on the objects of a class or a type.
    fn write_kind_report<W: Target>(
        &self,
        alloc: Global,
        cache: &mut Cache,
        report: KindReport,
        kind: Kind,
        target: &mut W,
    ) -> Result<(), ProductFault>
        requires well { W.health target.old ≡ Well }
        requires kept { IsCacheOf (size_of self.now.heap.now) (facts_of self.now.heap.now) cache.old }
        ensures bytes { (text : List ℕ) × IsKindReport (size_of self.now.heap.now) (facts_of self.now.heap.now) report kind text
            × WritesText (W.written target.old) (W.written target.new) result text }
        ensures health { LeavesTarget result (W.health target.new) }
        ensures kept { IsCacheOf (size_of self.now.heap.now) (facts_of self.now.heap.now) cache.new }
    {
        match report {
            KindReport::Biggest => self.write_biggest(alloc, cache, Choice::Of(kind), target),
            KindReport::Objects => write_objects(alloc, self.heap, kind, target),
        }
    }

    /// Writes a report. If the writer fails or memory runs out, the bytes written are the beginning of the report. If the report is on a
    /// name that no class has, it is refused, and nothing is written. `kept` has what was kept of the heap at the reports before, and
    /// keeps what is made now.
    pub fn write<W: Target>(
        &self,
        alloc: Global,
        cache: &mut Cache,
        report: Report<'_>,
        target: &mut W,
    ) -> Result<(), ProductFault>
        requires well { W.health target.old ≡ Well }
        requires kept { IsCacheOf (size_of self.now.heap.now) (facts_of self.now.heap.now) cache.old }
        ensures ends { EndsWriting W.written W.health
            (IsReport self.now.summaries.now (size_of self.now.heap.now) (facts_of self.now.heap.now) report.entry)
            (RefusesReport (facts_of self.now.heap.now) report.entry) (TakesMemory report.entry) target.old target.new result }
        ensures kept { IsCacheOf (size_of self.now.heap.now) (facts_of self.now.heap.now) cache.new }
    {
        match report {
            Report::Heap(report) => self.write_heap_report(alloc, cache, report, target),
            Report::Kind(report, Kinds::Of(kind)) => {
                self.write_kind_report(alloc, cache, report, kind, target)
            }
            Report::Kind(report, Kinds::Named(name)) => {
                self.write_kind_named(alloc, cache, report, name, target)
            }
            Report::Node(report, Node::Identifier(id)) => {
                self.write_node_report(alloc, cache, report, id, target)
            }
            Report::Node(report, Node::Named(name)) => {
                self.write_node_named(alloc, cache, report, name, target)
            }
        }
    }
}
