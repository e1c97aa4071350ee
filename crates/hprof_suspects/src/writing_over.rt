//! The report `suspects` by passes over objects.

ghost use Rattle.std.specs.Prelude.{◌≡◌, List, All, IfOk, string_bytes};
ghost use Rattle.hprof_items.specs.FactValue.{FactValue};
ghost use Rattle.hprof_devices.specs.declared.health.Health.TheVariants.{Well};
ghost use Rattle.hprof_heap.specs.HeapFacts.{facts_of, size_of};
ghost use Rattle.hprof_describe.specs.Findings.{AreFindings, Findings};
ghost use Rattle.hprof_lines.specs.Passed.{EndsPassed};
ghost use Rattle.hprof_lines.specs.Stopping.{LeavesTarget, WritesText};
ghost use Rattle.hprof_passes.specs.Finding.{Finds};
ghost use Rattle.hprof_retained.specs.CachedReferences.{AreCachedReferences};
ghost use Rattle.hprof_suspects.specs.SuspectsText.{IsSuspectsText};
ghost use Rattle.hprof_suspects.specs.Told.{Fits, report_text};
ghost use Rattle.hprof_suspects.specs.ToldHeaps.{AreFoundOut, IsToldHeap, named_nodes};

use crate::found_out::{FoundOut, found_out_over};
use crate::named::nodes_named;
use crate::report::report_text;
use hprof_devices::Target;
use hprof_engine::ProductFault;
use hprof_heap::Heap;
use hprof_lines::{stop_of_pass, write_line};
use hprof_naming::ClassNames;
use hprof_passes::{Objects, PassFault};
use hprof_retained::CachedReferences;
use hprof_words::words_heap;
use std::alloc::{AllocError, Global};

/// Returns the heap of all objects that the words of the report are read from.
///
/// # Errors
///
/// Those of `words_heap`.
fn told_heap<O: Objects>(
    alloc: Global,
    heap: &Heap,
    objects: &O,
    found: &FoundOut,
) -> Result<Heap, PassFault<AllocError, O::Fault>>
    requires { All (Fits found.now.retained) found.now.told.items }
    ensures { Finds (O.make_up objects.now (size_of heap.now) (facts_of heap.now))
        (O.agree objects.now (size_of heap.now) (facts_of heap.now)) (O.tells objects.now (size_of heap.now) (facts_of heap.now))
        (IsToldHeap (size_of heap.now) (named_nodes found.now.retained found.now.told.items)) result }
{
    match nodes_named(alloc, &found.retained, &found.told) {
        Ok(nodes) => words_heap(alloc, heap, objects, nodes),
        Err(fault) => Err(PassFault::Sink(fault)),
    }
}

/// Returns the text of the report, with the words of a heap. If memory runs out, the answer is `AllocError`.
fn found_text(alloc: Global, heap: &Heap, found: &FoundOut) -> Result<String, AllocError>
    requires { All (Fits found.now.retained) found.now.told.items }
    ensures { (words : Findings) → AreFindings (size_of heap.now) (facts_of heap.now) words → IfOk result (λ text. string_bytes text
        ≡ report_text words found.now.retained found.now.labels found.now.weakly found.now.told.items) }
{
    let names = ClassNames::of(alloc, heap)?;
    report_text(
        alloc,
        heap,
        &names,
        &found.retained,
        &found.labels,
        &found.weakly,
        &found.told,
    )
}

/// Writes the report, with the words of a heap.
fn write_found<W: Target>(
    alloc: Global,
    heap: &Heap,
    found: &FoundOut,
    target: &mut W,
) -> Result<(), ProductFault>
    requires fit { All (Fits found.now.retained) found.now.told.items }
    requires well { W.health target.old ≡ Well }
    ensures bytes { (words : Findings) → AreFindings (size_of heap.now) (facts_of heap.now) words
        → WritesText (W.written target.old) (W.written target.new) result
        (report_text words found.now.retained found.now.labels found.now.weakly found.now.told.items) }
    ensures health { LeavesTarget result (W.health target.new) }
{
    let text = found_text(alloc, heap, found);
    write_line(text, target)
}

/// Writes the report from all that it is written from but the words for nodes.
///
/// # Errors
///
/// Those of [`write_suspects_over`].
fn write_from_found<O: Objects, W: Target>(
    alloc: Global,
    heap: &Heap,
    objects: &O,
    found: &FoundOut,
    target: &mut W,
) -> Result<(), PassFault<ProductFault, O::Fault>>
    requires agree { O.agree objects.now (size_of heap.now) (facts_of heap.now) }
    requires found { (all : List FactValue) → O.make_up objects.now (size_of heap.now) (facts_of heap.now) all
        → AreFoundOut (size_of heap.now) all found.now }
    requires fit { All (Fits found.now.retained) found.now.told.items }
    requires well { W.health target.old ≡ Well }
    ensures { EndsPassed (O.make_up objects.now (size_of heap.now) (facts_of heap.now))
        (O.agree objects.now (size_of heap.now) (facts_of heap.now)) (O.tells objects.now (size_of heap.now) (facts_of heap.now))
        (λ all. IsSuspectsText (size_of heap.now) all) W.written W.health target.old target.new result }
{
    let small = match told_heap(alloc, heap, objects, found) {
        Ok(small) => small,
        Err(stop) => return Err(stop_of_pass(stop)),
    };
    match write_found(alloc, &small, found, target) {
        Ok(()) => Ok(()),
        Err(stop) => Err(PassFault::Sink(stop)),
    }
}

/// Writes the report `suspects`, as [`write_suspects`](crate::write_suspects) does. The heap has all facts but the objects, which are gone
/// through seven or eight times if nothing is kept; some are picked, two to four times. Memory holds the identifiers of all nodes, the
/// numbers of what each refers to, and the tree of dominators; and of the objects only these:
///
/// - the instances of `java.lang.Class`;
/// - the suspects and the objects above them;
/// - those that the texts of strings and the names of threads among them are read from.
///
/// # Errors
///
/// - `Sink`: the writer failed or memory ran out. The bytes written are the beginning of the report.
/// - `Lost`: the objects cannot be gone through. Nothing was written.
pub fn write_suspects_over<O: Objects, W: Target>(
    alloc: Global,
    heap: &Heap,
    objects: &O,
    references: &mut CachedReferences,
    target: &mut W,
) -> Result<(), PassFault<ProductFault, O::Fault>>
    requires references { AreCachedReferences (O.make_up objects.now (size_of heap.now) (facts_of heap.now))
        (O.agree objects.now (size_of heap.now) (facts_of heap.now)) (size_of heap.now) references.old }
    requires well { W.health target.old ≡ Well }
    ensures ends { EndsPassed (O.make_up objects.now (size_of heap.now) (facts_of heap.now))
        (O.agree objects.now (size_of heap.now) (facts_of heap.now)) (O.tells objects.now (size_of heap.now) (facts_of heap.now))
        (λ all. IsSuspectsText (size_of heap.now) all) W.written W.health target.old target.new result }
    ensures references { AreCachedReferences (O.make_up objects.now (size_of heap.now) (facts_of heap.now))
        (O.agree objects.now (size_of heap.now) (facts_of heap.now)) (size_of heap.now) references.new }
{
    let found = match found_out_over(alloc, heap, objects, references) {
        Ok(found) => found,
        Err(stop) => return Err(stop_of_pass(stop)),
    };
    let outcome = write_from_found(alloc, heap, objects, &found, target);
    let FoundOut { retained, .. } = found;
    references.keep_retained(retained);
    outcome
}
