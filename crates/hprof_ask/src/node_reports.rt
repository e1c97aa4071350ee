//! The reports on an identifier.

ghost use Rattle.std.specs.Prelude.{◌≡◌, ℕ, List, IfOk};
ghost use Rattle.hprof_devices.specs.declared.health.Health.TheVariants.{Well};
ghost use Rattle.hprof_heap.specs.HeapFacts.{facts_of, size_of};
ghost use Rattle.hprof_reports.specs.PathText.{IsPathText};
ghost use Rattle.hprof_reports.specs.RefsText.{IsRefsText};
ghost use Rattle.hprof_lines.specs.Stopping.{LeavesTarget, WritesText};
ghost use Rattle.hprof_edges.specs.Edges.{AreReferrers};
ghost use Rattle.hprof_show.specs.ShowText.{IsShowText};
ghost use Rattle.hprof_holders.specs.WhoText.{IsWhoText};
ghost use Rattle.hprof_keeps.specs.KeepsText.{IsKeepsText};
ghost use Rattle.hprof_why.specs.WhyText.{IsWhyText};
ghost use Rattle.hprof_ask.specs.Cache.{IsCacheOf};
ghost use Rattle.hprof_ask.specs.Report.{IsNodeReport};

use crate::answerer::Answerer;
use crate::cache::{Cache, cached_or_made, retained_or_made};
use crate::survey::view_of;
use hprof_devices::Target;
use hprof_edges::{Edge, referrers};
use hprof_engine::ProductFault;
use hprof_heap::holds_of_heap;
use hprof_holders::write_who;
use hprof_keeps::write_keeps;
use hprof_questions::NodeReport;
use hprof_reports::{write_object, write_path, write_refs, write_text};
use hprof_show::write_show;
use hprof_why::write_why;
use std::alloc::{AllocError, Global};

impl<'a> Answerer<'a> {
    /// Returns each edge to an identifier, in order; for one of many reports from the index that is kept.
    fn edges_to(&self, alloc: Global, cache: &mut Cache, id: u64) -> Result<Vec<Edge>, AllocError>
        requires { IsCacheOf (size_of self.now.heap.now) (facts_of self.now.heap.now) cache.old }
        ensures edges { IfOk result (λ edges. AreReferrers (size_of self.now.heap.now) (facts_of self.now.heap.now) id edges.items) }
        ensures kept { IsCacheOf (size_of self.now.heap.now) (facts_of self.now.heap.now) cache.new }
    {
        if !cache.is_for_many {
            return referrers(alloc, self.heap, id);
        }
        let index = cached_or_made(alloc, self.heap, cache.referrers.take())?;
        let edges = index.referrers(alloc, self.heap, id);
        cache.referrers = Some(index);
        edges
    }

    /// Writes the report `refs` on an identifier.
    fn write_refs<W: Target>(
        &self,
        alloc: Global,
        cache: &mut Cache,
        id: u64,
        target: &mut W,
    ) -> Result<(), ProductFault>
        requires well { W.health target.old ≡ Well }
        requires kept { IsCacheOf (size_of self.now.heap.now) (facts_of self.now.heap.now) cache.old }
        ensures bytes { (text : List ℕ) × IsRefsText (size_of self.now.heap.now) (facts_of self.now.heap.now) id text
            × WritesText (W.written target.old) (W.written target.new) result text }
        ensures health { LeavesTarget result (W.health target.new) }
        ensures kept { IsCacheOf (size_of self.now.heap.now) (facts_of self.now.heap.now) cache.new }
    {
        holds_of_heap(self.heap);
        let edges = self.edges_to(alloc, cache, id)?;
        write_refs(alloc, self.heap, &edges, target)
    }

    /// Writes the report `path` on an identifier, from the search that is kept.
    fn write_path<W: Target>(
        &self,
        alloc: Global,
        cache: &mut Cache,
        id: u64,
        target: &mut W,
    ) -> Result<(), ProductFault>
        requires well { W.health target.old ≡ Well }
        requires kept { IsCacheOf (size_of self.now.heap.now) (facts_of self.now.heap.now) cache.old }
        ensures bytes { (text : List ℕ) × IsPathText (size_of self.now.heap.now) (facts_of self.now.heap.now) id text
            × WritesText (W.written target.old) (W.written target.new) result text }
        ensures health { LeavesTarget result (W.health target.new) }
        ensures kept { IsCacheOf (size_of self.now.heap.now) (facts_of self.now.heap.now) cache.new }
    {
        holds_of_heap(self.heap);
        let reach = cached_or_made(alloc, self.heap, cache.reach.take())?;
        let outcome = write_path(alloc, &reach, id, target);
        cache.reach = Some(reach);
        outcome
    }

    /// Writes the report `show` on an identifier.
    fn write_show<W: Target>(
        &self,
        alloc: Global,
        cache: &mut Cache,
        id: u64,
        target: &mut W,
    ) -> Result<(), ProductFault>
        requires well { W.health target.old ≡ Well }
        requires kept { IsCacheOf (size_of self.now.heap.now) (facts_of self.now.heap.now) cache.old }
        ensures bytes { (text : List ℕ) × IsShowText (size_of self.now.heap.now) (facts_of self.now.heap.now) id text
            × WritesText (W.written target.old) (W.written target.new) result text }
        ensures health { LeavesTarget result (W.health target.new) }
        ensures kept { IsCacheOf (size_of self.now.heap.now) (facts_of self.now.heap.now) cache.new }
    {
        holds_of_heap(self.heap);
        let survey = cached_or_made(alloc, self.heap, cache.survey.take())?;
        let outcome = write_show(alloc, self.heap, &survey.classes, id, target);
        cache.survey = Some(survey);
        outcome
    }

    /// Writes the report `who` on an identifier.
    fn write_who<W: Target>(
        &self,
        alloc: Global,
        cache: &mut Cache,
        id: u64,
        target: &mut W,
    ) -> Result<(), ProductFault>
        requires well { W.health target.old ≡ Well }
        requires kept { IsCacheOf (size_of self.now.heap.now) (facts_of self.now.heap.now) cache.old }
        ensures bytes { (text : List ℕ) × IsWhoText (size_of self.now.heap.now) (facts_of self.now.heap.now) id text
            × WritesText (W.written target.old) (W.written target.new) result text }
        ensures health { LeavesTarget result (W.health target.new) }
        ensures kept { IsCacheOf (size_of self.now.heap.now) (facts_of self.now.heap.now) cache.new }
    {
        holds_of_heap(self.heap);
        let edges = self.edges_to(alloc, cache, id)?;
        let survey = cached_or_made(alloc, self.heap, cache.survey.take())?;
        let references = cached_or_made(alloc, self.heap, cache.references.take())?;
        let view = view_of(self.heap, &survey, &references);
        let outcome = write_who(alloc, view, id, &edges, target);
        cache.survey = Some(survey);
        cache.references = Some(references);
        outcome
    }

    /// Writes the report `keeps` on an identifier.
    fn write_keeps<W: Target>(
        &self,
        alloc: Global,
        cache: &mut Cache,
        id: u64,
        target: &mut W,
    ) -> Result<(), ProductFault>
        requires well { W.health target.old ≡ Well }
        requires kept { IsCacheOf (size_of self.now.heap.now) (facts_of self.now.heap.now) cache.old }
        ensures bytes { (text : List ℕ) × IsKeepsText (size_of self.now.heap.now) (facts_of self.now.heap.now) id text
            × WritesText (W.written target.old) (W.written target.new) result text }
        ensures health { LeavesTarget result (W.health target.new) }
        ensures kept { IsCacheOf (size_of self.now.heap.now) (facts_of self.now.heap.now) cache.new }
    {
        holds_of_heap(self.heap);
        let survey = cached_or_made(alloc, self.heap, cache.survey.take())?;
        let references = cached_or_made(alloc, self.heap, cache.references.take())?;
        let retained = retained_or_made(alloc, self.heap, &references.weak, cache.retained.take())?;
        let outcome = write_keeps(
            alloc,
            self.heap,
            &survey.classes,
            &references.weak,
            &retained,
            &mut cache.weakly,
            id,
            target,
        );
        cache.survey = Some(survey);
        cache.references = Some(references);
        cache.retained = Some(retained);
        outcome
    }

    /// Writes the report `why` on an identifier, from the searches that are kept.
    fn write_why<W: Target>(
        &self,
        alloc: Global,
        cache: &mut Cache,
        id: u64,
        target: &mut W,
    ) -> Result<(), ProductFault>
        requires well { W.health target.old ≡ Well }
        requires kept { IsCacheOf (size_of self.now.heap.now) (facts_of self.now.heap.now) cache.old }
        ensures bytes { (text : List ℕ) × IsWhyText (size_of self.now.heap.now) (facts_of self.now.heap.now) id text
            × WritesText (W.written target.old) (W.written target.new) result text }
        ensures health { LeavesTarget result (W.health target.new) }
        ensures kept { IsCacheOf (size_of self.now.heap.now) (facts_of self.now.heap.now) cache.new }
    {
        holds_of_heap(self.heap);
        let survey = cached_or_made(alloc, self.heap, cache.survey.take())?;
        let mut references = cached_or_made(alloc, self.heap, cache.references.take())?;
        let strong = references.take_strong(alloc, self.heap)?;
        let view = view_of(self.heap, &survey, &references);
        let outcome = write_why(alloc, view, &strong, &mut cache.reach, id, target);
        references.strong = Some(strong);
        cache.survey = Some(survey);
        cache.references = Some(references);
        outcome
    }

    /// Writes a report on an identifier.
    pub(crate) fn write_node_report<W: Target>(
        &self,
        alloc: Global,
        cache: &mut Cache,
        report: NodeReport,
        id: u64,
        target: &mut W,
    ) -> Result<(), ProductFault>
        requires well { W.health target.old ≡ Well }
        requires kept { IsCacheOf (size_of self.now.heap.now) (facts_of self.now.heap.now) cache.old }
        ensures bytes { (text : List ℕ) × IsNodeReport (size_of self.now.heap.now) (facts_of self.now.heap.now) report id text
            × WritesText (W.written target.old) (W.written target.new) result text }
        ensures health { LeavesTarget result (W.health target.new) }
        ensures kept { IsCacheOf (size_of self.now.heap.now) (facts_of self.now.heap.now) cache.new }
    {
        match report {
            NodeReport::Show => self.write_show(alloc, cache, id, target),
            NodeReport::Why => self.write_why(alloc, cache, id, target),
            NodeReport::Who => self.write_who(alloc, cache, id, target),
            NodeReport::Keeps => self.write_keeps(alloc, cache, id, target),
            NodeReport::Text => write_text(alloc, self.heap, id, target),
            NodeReport::Object => write_object(alloc, self.heap, id, target),
            NodeReport::Refs => self.write_refs(alloc, cache, id, target),
            NodeReport::Path => self.write_path(alloc, cache, id, target),
        }
    }
}
