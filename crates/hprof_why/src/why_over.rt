//! The report `why` by passes over objects.

ghost use Rattle.std.specs.Prelude.{◌≡◌, ℕ, List};
ghost use Rattle.hprof_devices.specs.declared.health.Health.TheVariants.{Well};
ghost use Rattle.hprof_heap.specs.HeapFacts.{facts_of, size_of};
ghost use Rattle.hprof_lines.specs.Passed.{EndsPassed};
ghost use Rattle.hprof_lines.specs.Stopping.{LeavesTarget, WritesText};
ghost use Rattle.hprof_passes.specs.Finding.{Finds};
ghost use Rattle.hprof_retained.specs.CachedReferences.{AreCachedReferences};
ghost use Rattle.hprof_why.specs.Paths.{TellsFound};
ghost use Rattle.hprof_why.specs.WhyObjects.{IsWhyHeap, path_nodes};
ghost use Rattle.hprof_why.specs.WhyText.{ArePathFindings, IsWhyText, PathFindings};

use crate::reached::{Reached, reached_over};
use crate::why_objects::objects_of_why;
use crate::why_report::write_told;
use hprof_devices::Target;
use hprof_engine::ProductFault;
use hprof_heap::Heap;
use hprof_holders::HeapTables;
use hprof_lines::stop_of_pass;
use hprof_passes::{Objects, PassFault};
use hprof_retained::CachedReferences;
use hprof_words::words_heap;
use std::alloc::{AllocError, Global};

/// Returns the heap of all objects that the report on an identifier is read from, which is reached so.
///
/// # Errors
///
/// Those of `words_heap`.
fn why_heap<O: Objects>(
    alloc: Global,
    heap: &Heap,
    objects: &O,
    id: u64,
    reached: &Reached,
) -> Result<Heap, PassFault<AllocError, O::Fault>>
    ensures { Finds (O.make_up objects.now (size_of heap.now) (facts_of heap.now))
        (O.agree objects.now (size_of heap.now) (facts_of heap.now)) (O.tells objects.now (size_of heap.now) (facts_of heap.now))
        (λ all. IsWhyHeap (size_of heap.now) id (path_nodes reached.now) all) result }
{
    match objects_of_why(alloc, heap, id, reached) {
        Ok(nodes) => words_heap(alloc, heap, objects, nodes),
        Err(fault) => Err(PassFault::Sink(fault)),
    }
}

/// Writes how an identifier of a heap with its objects in memory is reached, or that it has no dump.
fn write_in_memory<W: Target>(
    alloc: Global,
    heap: &Heap,
    id: u64,
    reached: &Reached,
    target: &mut W,
) -> Result<(), ProductFault>
    requires { W.health target.old ≡ Well }
    ensures bytes { (found : PathFindings) (text : List ℕ) → ArePathFindings (size_of heap.now) (facts_of heap.now) found
        → TellsFound (size_of heap.now) (facts_of heap.now) found id reached.now text
        → WritesText (W.written target.old) (W.written target.new) result text }
    ensures health { LeavesTarget result (W.health target.new) }
{
    let tables = HeapTables::of(alloc, heap)?;
    write_told(alloc, tables.view(heap), id, reached, target)
}

/// Writes the report `why` on an identifier, as [`write_why`](crate::write_why) does. The heap has all facts but the objects, which are
/// gone through two to five times if no search is kept; then some are picked, one to three times. Memory holds the identifiers of all nodes
/// and the numbers of what each refers to, and then, of the objects, only these:
///
/// - the object itself, and those on the path;
/// - those of the threads of the roots of the first one;
/// - those that the texts of strings and the names of threads among them are read from.
///
/// # Errors
///
/// - `Sink`: the writer failed or memory ran out. The bytes written are the beginning of the report.
/// - `Lost`: the objects cannot be gone through. Nothing was written.
pub fn write_why_over<O: Objects, W: Target>(
    alloc: Global,
    heap: &Heap,
    objects: &O,
    references: &mut CachedReferences,
    id: u64,
    target: &mut W,
) -> Result<(), PassFault<ProductFault, O::Fault>>
    requires references { AreCachedReferences (O.make_up objects.now (size_of heap.now) (facts_of heap.now))
        (O.agree objects.now (size_of heap.now) (facts_of heap.now)) (size_of heap.now) references.old }
    requires well { W.health target.old ≡ Well }
    ensures ends { EndsPassed (O.make_up objects.now (size_of heap.now) (facts_of heap.now))
        (O.agree objects.now (size_of heap.now) (facts_of heap.now)) (O.tells objects.now (size_of heap.now) (facts_of heap.now))
        (λ all. IsWhyText (size_of heap.now) all id) W.written W.health target.old target.new result }
    ensures references { AreCachedReferences (O.make_up objects.now (size_of heap.now) (facts_of heap.now))
        (O.agree objects.now (size_of heap.now) (facts_of heap.now)) (size_of heap.now) references.new }
{
    let reached = match reached_over(alloc, heap, objects, references, id) {
        Ok(reached) => reached,
        Err(stop) => return Err(stop_of_pass(stop)),
    };
    let small = match why_heap(alloc, heap, objects, id, &reached) {
        Ok(small) => small,
        Err(stop) => return Err(stop_of_pass(stop)),
    };
    match write_in_memory(alloc, &small, id, &reached, target) {
        Ok(()) => Ok(()),
        Err(stop) => Err(PassFault::Sink(stop)),
    }
}
