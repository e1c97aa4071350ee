//! Reports on the classes that a name means.

ghost use Rattle.std.specs.Prelude.{◌≡◌, ◌↔◌, ℕ, List, ⊤, IfOk, IsTrue};
ghost use Rattle.std.specs.List.Sorted.{IsStrictlyIncreasing};
ghost use Rattle.hprof_devices.specs.declared.health.Health.TheVariants.{Well};
ghost use Rattle.hprof_engine.specs.Makes.{EndsWriting};
ghost use Rattle.hprof_heap.specs.HeapFacts.{facts_of, size_of};
ghost use Rattle.hprof_meaning.specs.MeantClasses.{AreMeantClasses, AreMeantDumps};
ghost use Rattle.hprof_meaning.specs.NamedText.{IsNamedText};
ghost use Rattle.hprof_lines.specs.Stopping.{LeavesTarget, WritesText};
ghost use Rattle.hprof_ask.specs.Cache.{IsCacheOf};
ghost use Rattle.hprof_ask.specs.Report.{IsNamedKind, IsNamedReport, IsReportOfClasses, NamesClasses, RefusesReport};
ghost use Rattle.hprof_questions.specs.declared.report.Kinds.TheVariants as these;
ghost use Rattle.hprof_questions.specs.declared.report.Node.TheVariants as that;

use crate::answerer::Answerer;
use crate::cache::{Cache, cached_or_made};
use hprof_devices::Target;
use hprof_engine::{HeapFault, ProductFault};
use hprof_heap::holds_of_heap;
use hprof_keeps::Choice;
use hprof_meaning::{
    class_dumps_meant, classes_meant, write_classes_of_name, write_objects_of_classes,
};
use hprof_naming::MeantLabel;
use hprof_questions::{KindReport, NodeReport, Report};
use std::alloc::{AllocError, Global};

/// Returns whether a name is that of the class of all classes, which every heap has.
pub fn names_classes(name: &[u8]) -> bool
    ensures { IsTrue result ↔ NamesClasses name.now }
{
    MeantLabel::of(name).matches(b"java/lang/Class")
}

impl<'a> Answerer<'a> {
    /// Returns the classes that a name means, ascending.
    fn classes_named(
        &self,
        alloc: Global,
        cache: &mut Cache,
        name: &[u8],
    ) -> Result<Vec<u64>, AllocError>
        requires { IsCacheOf (size_of self.now.heap.now) (facts_of self.now.heap.now) cache.old }
        ensures classes { IfOk result (λ classes. AreMeantClasses (facts_of self.now.heap.now) name.now classes.items) }
        ensures kept { IsCacheOf (size_of self.now.heap.now) (facts_of self.now.heap.now) cache.new }
    {
        let survey = cached_or_made(alloc, self.heap, cache.survey.take())?;
        let classes = classes_meant(alloc, self.heap, &survey.classes, &MeantLabel::of(name));
        cache.survey = Some(survey);
        classes
    }

    /// Returns the class dumps that a name means, ascending.
    fn dumps_named(
        &self,
        alloc: Global,
        cache: &mut Cache,
        name: &[u8],
    ) -> Result<Vec<u64>, AllocError>
        requires { IsCacheOf (size_of self.now.heap.now) (facts_of self.now.heap.now) cache.old }
        ensures dumps { IfOk result (λ dumps. AreMeantDumps (facts_of self.now.heap.now) name.now dumps.items) }
        ensures kept { IsCacheOf (size_of self.now.heap.now) (facts_of self.now.heap.now) cache.new }
    {
        let survey = cached_or_made(alloc, self.heap, cache.survey.take())?;
        let dumps = class_dumps_meant(alloc, self.heap, &survey.classes, &MeantLabel::of(name));
        cache.survey = Some(survey);
        dumps
    }

    /// Writes a report on the objects of these classes, which a name means.
    fn write_of_classes<W: Target>(
        &self,
        alloc: Global,
        cache: &mut Cache,
        report: KindReport,
        name: &[u8],
        classes: &[u64],
        target: &mut W,
    ) -> Result<(), ProductFault>
        requires well { W.health target.old ≡ Well }
        requires ascend { IsStrictlyIncreasing classes.now }
        requires kept { IsCacheOf (size_of self.now.heap.now) (facts_of self.now.heap.now) cache.old }
        ensures bytes { (text : List ℕ)
            × IsReportOfClasses (size_of self.now.heap.now) (facts_of self.now.heap.now) report name.now classes.now text
            × WritesText (W.written target.old) (W.written target.new) result text }
        ensures health { LeavesTarget result (W.health target.new) }
        ensures kept { IsCacheOf (size_of self.now.heap.now) (facts_of self.now.heap.now) cache.new }
    {
        match report {
            KindReport::Biggest => {
                let with_class_dumps = names_classes(name);
                let choice = Choice::OfClasses {
                    classes,
                    with_class_dumps,
                };
                self.write_biggest(alloc, cache, choice, target)
            }
            KindReport::Objects => write_objects_of_classes(alloc, self.heap, classes, target),
        }
    }

    /// Writes a report on the objects of the classes that a name means. If there are none, and it is not the name of the class of all
    /// classes, nothing is written.
    pub(crate) fn write_kind_named<W: Target>(
        &self,
        alloc: Global,
        cache: &mut Cache,
        report: KindReport,
        name: &[u8],
        target: &mut W,
    ) -> Result<(), ProductFault>
        requires well { W.health target.old ≡ Well }
        requires kept { IsCacheOf (size_of self.now.heap.now) (facts_of self.now.heap.now) cache.old }
        ensures ends { EndsWriting W.written W.health (IsNamedKind (size_of self.now.heap.now) (facts_of self.now.heap.now) report name.now)
            (RefusesReport (facts_of self.now.heap.now) (Report.Kind report (these.Named name.entry))) ⊤ target.old target.new result }
        ensures kept { IsCacheOf (size_of self.now.heap.now) (facts_of self.now.heap.now) cache.new }
    {
        holds_of_heap(self.heap);
        let Ok(classes) = self.classes_named(alloc, cache, name) else {
            return Err(ProductFault::OutOfMemory);
        };
        if classes.is_empty() && !names_classes(name) {
            return Err(ProductFault::Refused(HeapFault::NoClass));
        }
        self.write_of_classes(alloc, cache, report, name, &classes, target)
    }

    /// Writes which classes have the name that was asked for.
    fn write_which<W: Target>(
        &self,
        alloc: Global,
        cache: &mut Cache,
        dumps: &[u64],
        target: &mut W,
    ) -> Result<(), ProductFault>
        requires well { W.health target.old ≡ Well }
        requires kept { IsCacheOf (size_of self.now.heap.now) (facts_of self.now.heap.now) cache.old }
        ensures bytes { (text : List ℕ) × IsNamedText (size_of self.now.heap.now) (facts_of self.now.heap.now) dumps.now text
            × WritesText (W.written target.old) (W.written target.new) result text }
        ensures health { LeavesTarget result (W.health target.new) }
        ensures kept { IsCacheOf (size_of self.now.heap.now) (facts_of self.now.heap.now) cache.new }
    {
        holds_of_heap(self.heap);
        let survey = cached_or_made(alloc, self.heap, cache.survey.take())?;
        let outcome = write_classes_of_name(alloc, self.heap, &survey.classes, dumps, target);
        cache.survey = Some(survey);
        outcome
    }

    /// Writes a report on the class dump that a name means. If there are several it writes which they are, and if there is none, nothing.
    pub(crate) fn write_node_named<W: Target>(
        &self,
        alloc: Global,
        cache: &mut Cache,
        report: NodeReport,
        name: &[u8],
        target: &mut W,
    ) -> Result<(), ProductFault>
        requires well { W.health target.old ≡ Well }
        requires kept { IsCacheOf (size_of self.now.heap.now) (facts_of self.now.heap.now) cache.old }
        ensures ends { EndsWriting W.written W.health
            (IsNamedReport (size_of self.now.heap.now) (facts_of self.now.heap.now) report name.now)
            (RefusesReport (facts_of self.now.heap.now) (Report.Node report (that.Named name.entry))) ⊤ target.old target.new result }
        ensures kept { IsCacheOf (size_of self.now.heap.now) (facts_of self.now.heap.now) cache.new }
    {
        holds_of_heap(self.heap);
        let Ok(dumps) = self.dumps_named(alloc, cache, name) else {
            return Err(ProductFault::OutOfMemory);
        };
        let Some((first, others)) = dumps.split_first() else {
            return Err(ProductFault::Refused(HeapFault::NoClass));
        };
        if others.is_empty() {
            self.write_node_report(alloc, cache, report, *first, target)
        } else {
            self.write_which(alloc, cache, &dumps, target)
        }
    }
}
