//! The reports on the objects of one class or type, or of the classes that a name means.

ghost use Rattle.std.specs.Prelude.{◌≡◌, ◌↔◌, List, [], IsTrue};
ghost use Rattle.std.specs.List.Sorted.{IsStrictlyIncreasing};
ghost use Rattle.hprof_devices.specs.declared.health.Health.TheVariants.{Well};
ghost use Rattle.hprof_heap.specs.Heap.{heap_of};
ghost use Rattle.hprof_heap.specs.HeapFacts.{facts_of, size_of};
ghost use Rattle.hprof_lines.specs.Passed.{EndsPassed};
ghost use Rattle.hprof_retained.specs.CachedReferences.{AreCachedReferences};
ghost use Rattle.hprof_stream.specs.declared.summary.PartSummary.{PartSummary};
ghost use Rattle.hprof_questions.specs.declared.report.Kinds.TheVariants as these;
ghost use Rattle.hprof_questions.specs.declared.report.Report.TheVariants as reports;
ghost use Rattle.hprof_ask.specs.Report.{IsKindReport, IsNamedKind, IsReportOfClasses, IsReportText, NamesClasses, RefusesReport};
ghost use Rattle.hprof_making.specs.Over.{EndsOver, heap_with};

use hprof_ask::names_classes;
use hprof_devices::Target;
use hprof_engine::{HeapFault, ProductFault};
use hprof_heap::Heap;
use hprof_histogram::Kind;
use hprof_keeps::{Choice, write_biggest_over};
use hprof_lines::{stop_of_pass, write_objects_over};
use hprof_meaning::{classes_meant_over, write_objects_of_classes_over};
use hprof_naming::{ClassNames, MeantLabel};
use hprof_passes::{Objects, PassFault};
use hprof_questions::{KindReport, Kinds};
use hprof_retained::CachedReferences;
use std::alloc::Global;

/// Writes a report on the objects of a class or a type.
fn write_of_kind<O: Objects, W: Target>(
    alloc: Global,
    heap: &Heap,
    objects: &O,
    references: &mut CachedReferences,
    report: KindReport,
    kind: Kind,
    target: &mut W,
) -> Result<(), PassFault<ProductFault, O::Fault>>
    requires references { AreCachedReferences (O.make_up objects.now (size_of heap.now) (facts_of heap.now))
        (O.agree objects.now (size_of heap.now) (facts_of heap.now)) (size_of heap.now) references.old }
    requires well { W.health target.old ≡ Well }
    ensures ends { EndsPassed (O.make_up objects.now (size_of heap.now) (facts_of heap.now))
        (O.agree objects.now (size_of heap.now) (facts_of heap.now)) (O.tells objects.now (size_of heap.now) (facts_of heap.now))
        (λ all. IsKindReport (size_of heap.now) all report kind) W.written W.health target.old target.new result }
    ensures references { AreCachedReferences (O.make_up objects.now (size_of heap.now) (facts_of heap.now))
        (O.agree objects.now (size_of heap.now) (facts_of heap.now)) (size_of heap.now) references.new }
{
    match report {
        KindReport::Biggest => {
            write_biggest_over(alloc, heap, objects, references, Choice::Of(kind), target)
        }
        KindReport::Objects => write_objects_over(alloc, heap, objects, kind, target),
    }
}

/// Writes a report on the objects of these classes, which a name means.
fn write_of_classes<O: Objects, W: Target>(
    alloc: Global,
    heap: &Heap,
    objects: &O,
    references: &mut CachedReferences,
    report: KindReport,
    name: &[u8],
    classes: &[u64],
    target: &mut W,
) -> Result<(), PassFault<ProductFault, O::Fault>>
    requires references { AreCachedReferences (O.make_up objects.now (size_of heap.now) (facts_of heap.now))
        (O.agree objects.now (size_of heap.now) (facts_of heap.now)) (size_of heap.now) references.old }
    requires ascend { IsStrictlyIncreasing classes.now }
    requires well { W.health target.old ≡ Well }
    ensures ends { EndsPassed (O.make_up objects.now (size_of heap.now) (facts_of heap.now))
        (O.agree objects.now (size_of heap.now) (facts_of heap.now)) (O.tells objects.now (size_of heap.now) (facts_of heap.now))
        (λ all. IsReportOfClasses (size_of heap.now) all report name.now classes.now) W.written W.health target.old target.new result }
    ensures references { AreCachedReferences (O.make_up objects.now (size_of heap.now) (facts_of heap.now))
        (O.agree objects.now (size_of heap.now) (facts_of heap.now)) (size_of heap.now) references.new }
{
    match report {
        KindReport::Biggest => {
            let with_class_dumps = names_classes(name);
            let choice = Choice::OfClasses {
                classes,
                with_class_dumps,
            };
            write_biggest_over(alloc, heap, objects, references, choice, target)
        }
        KindReport::Objects => write_objects_of_classes_over(alloc, heap, objects, classes, target),
    }
}

/// Returns whether a name is answered where it means these classes: there is one, or it is the name of the class of all classes.
fn is_answered(classes: &[u64], name: &[u8]) -> bool
    ensures { IsTrue result ↔ (classes.now ≡ [] → NamesClasses name.now) }
{
    !classes.is_empty() || names_classes(name)
}

/// Writes a report on the objects of all classes that a name means. If there are none, and it is not the name of the class of all classes,
/// nothing is written.
fn write_kind_named<O: Objects, W: Target>(
    alloc: Global,
    heap: &Heap,
    objects: &O,
    references: &mut CachedReferences,
    report: KindReport,
    name: &[u8],
    target: &mut W,
) -> Result<(), PassFault<ProductFault, O::Fault>>
    requires references { AreCachedReferences (O.make_up objects.now (size_of heap.now) (facts_of heap.now))
        (O.agree objects.now (size_of heap.now) (facts_of heap.now)) (size_of heap.now) references.old }
    requires well { W.health target.old ≡ Well }
    ensures ends { EndsOver (O.make_up objects.now (size_of heap.now) (facts_of heap.now))
        (O.agree objects.now (size_of heap.now) (facts_of heap.now)) (O.tells objects.now (size_of heap.now) (facts_of heap.now))
        (λ all. IsNamedKind (size_of heap.now) all report name.now)
        (λ refusal all. RefusesReport all (reports.Kind report (these.Named name.entry)) refusal)
        W.written W.health target.old target.new result }
    ensures references { AreCachedReferences (O.make_up objects.now (size_of heap.now) (facts_of heap.now))
        (O.agree objects.now (size_of heap.now) (facts_of heap.now)) (size_of heap.now) references.new }
{
    let Ok(names) = ClassNames::of(alloc, heap) else {
        return Err(PassFault::Sink(ProductFault::OutOfMemory));
    };
    let meant = MeantLabel::of(name);
    let classes = match classes_meant_over(alloc, heap, objects, &names, &meant) {
        Ok(classes) => classes,
        Err(stop) => return Err(stop_of_pass(stop)),
    };
    if !is_answered(&classes, name) {
        return Err(PassFault::Sink(ProductFault::Refused(HeapFault::NoClass)));
    }
    write_of_classes(
        alloc, heap, objects, references, report, name, &classes, target,
    )
}

/// Writes a report on the objects of a class or a type, or of the classes that a name means. If it is on a name that no class has, it is
/// refused, and nothing is written.
pub(crate) fn write_kind<O: Objects, W: Target>(
    alloc: Global,
    heap: &Heap,
    objects: &O,
    references: &mut CachedReferences,
    report: KindReport,
    kinds: Kinds<'_>,
    target: &mut W,
) -> Result<(), PassFault<ProductFault, O::Fault>>
    requires references { AreCachedReferences (O.make_up objects.now (size_of heap.now) (facts_of heap.now))
        (O.agree objects.now (size_of heap.now) (facts_of heap.now)) (size_of heap.now) references.old }
    requires well { W.health target.old ≡ Well }
    ensures ends { (summaries : List PartSummary) → EndsOver (O.make_up objects.now (size_of heap.now) (facts_of heap.now))
        (O.agree objects.now (size_of heap.now) (facts_of heap.now)) (O.tells objects.now (size_of heap.now) (facts_of heap.now))
        (λ all. IsReportText (reports.Kind report kinds.entry) summaries (heap_with (heap_of heap.now) all))
        (λ refusal all. RefusesReport all (reports.Kind report kinds.entry) refusal)
        W.written W.health target.old target.new result }
    ensures references { AreCachedReferences (O.make_up objects.now (size_of heap.now) (facts_of heap.now))
        (O.agree objects.now (size_of heap.now) (facts_of heap.now)) (size_of heap.now) references.new }
{
    match kinds {
        Kinds::Of(kind) => { write_of_kind(alloc, heap, objects, references, report, kind, target) }
        Kinds::Named(name) => {
            write_kind_named(alloc, heap, objects, references, report, name, target)
        }
    }
}
