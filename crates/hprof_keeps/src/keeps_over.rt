//! The report `keeps` by passes over objects.

ghost use Rattle.std.specs.Prelude.{◌≡◌, List};
ghost use Rattle.hprof_items.specs.FactValue.{FactValue};
ghost use Rattle.hprof_devices.specs.declared.health.Health.TheVariants.{Well};
ghost use Rattle.hprof_heap.specs.HeapFacts.{facts_of, size_of};
ghost use Rattle.hprof_lines.specs.Passed.{EndsPassed};
ghost use Rattle.hprof_lines.specs.Stopping.{LeavesTarget, WritesText};
ghost use Rattle.hprof_retained.specs.CachedReferences.{AreCachedReferences};
ghost use Rattle.hprof_describe.specs.Findings.{AreFindings, Findings};
ghost use Rattle.hprof_keeps.specs.Kept.{HasPlaces, IsKeptTree, above_places, below_places, kept_text};
ghost use Rattle.hprof_keeps.specs.KeepsText.{IsKeepsText};

use crate::keeps::write_kept;
use crate::kept::{Kept, KeptTree};
use crate::kept_over::kept_tree;
use crate::named::named_heap;
use hprof_devices::Target;
use hprof_engine::ProductFault;
use hprof_heap::Heap;
use hprof_lines::stop_of_pass;
use hprof_naming::ClassNames;
use hprof_passes::{Objects, PassFault};
use hprof_retained::{CachedReferences, Retained};
use std::alloc::Global;

/// Returns the places of the dominators that the report names.
fn above_of(kept: &Kept) -> &[usize]
    ensures { result.now ≡ above_places kept.now }
{
    match kept {
        Kept::Held { above, .. } => above,
        _ => &[],
    }
}

/// Returns the places of the nodes right below that the report names.
fn below_of(kept: &Kept) -> &[usize]
    ensures { result.now ≡ below_places kept.now }
{
    match kept {
        Kept::Roots { below, .. } | Kept::Held { below, .. } => below,
        _ => &[],
    }
}

/// Writes what is told of an identifier, with the words of a heap in memory. If it stops, some of it was written, from the front.
fn write_in_memory<W: Target>(
    alloc: Global,
    heap: &Heap,
    retained: &Retained,
    id: u64,
    kept: &Kept,
    target: &mut W,
) -> Result<(), ProductFault>
    requires places { HasPlaces retained.now kept.now }
    requires well { W.health target.old ≡ Well }
    ensures bytes { (found : Findings) → AreFindings (size_of heap.now) (facts_of heap.now) found
        → WritesText (W.written target.old) (W.written target.new) result (kept_text found retained.now id kept.now) }
    ensures health { LeavesTarget result (W.health target.new) }
{
    let classes = ClassNames::of(alloc, heap)?;
    write_kept(alloc, heap, &classes, retained, id, kept, target)
}

/// Writes what is told of an identifier from a tree of dominators.
///
/// # Errors
///
/// Those of [`write_keeps_over`].
fn write_from_tree<O: Objects, W: Target>(
    alloc: Global,
    heap: &Heap,
    objects: &O,
    made: &KeptTree,
    id: u64,
    target: &mut W,
) -> Result<(), PassFault<ProductFault, O::Fault>>
    requires agree { O.agree objects.now (size_of heap.now) (facts_of heap.now) }
    requires made { (all : List FactValue) → O.make_up objects.now (size_of heap.now) (facts_of heap.now) all
        → IsKeptTree (size_of heap.now) all id made.now }
    requires places { HasPlaces made.now.retained made.now.kept }
    requires well { W.health target.old ≡ Well }
    ensures { EndsPassed (O.make_up objects.now (size_of heap.now) (facts_of heap.now))
        (O.agree objects.now (size_of heap.now) (facts_of heap.now)) (O.tells objects.now (size_of heap.now) (facts_of heap.now))
        (λ all. IsKeepsText (size_of heap.now) all id) W.written W.health target.old target.new result }
{
    let small = match named_heap(
        alloc,
        heap,
        objects,
        &made.retained,
        above_of(&made.kept),
        below_of(&made.kept),
    ) {
        Ok(small) => small,
        Err(stop) => return Err(stop_of_pass(stop)),
    };
    match write_in_memory(alloc, &small, &made.retained, id, &made.kept, target) {
        Ok(()) => Ok(()),
        Err(stop) => Err(PassFault::Sink(stop)),
    }
}

/// Writes the report `keeps` on an identifier, as [`write_keeps`](crate::write_keeps) does. The heap has all facts but the objects, which
/// are gone through three to seven times if nothing is kept, and of which some are picked, one to four times. Memory holds the tree of
/// dominators, and a search if strong references do not reach the identifier or it is 0. Of the objects it then holds only these:
///
/// - the dominators of the identifier, and those right below it;
/// - those that the texts of strings and the names of threads among them are read from.
///
/// # Errors
///
/// - `Sink`: the writer failed or memory ran out. The bytes written are the beginning of the report.
/// - `Lost`: the objects cannot be gone through. Nothing was written.
pub fn write_keeps_over<O: Objects, W: Target>(
    alloc: Global,
    heap: &Heap,
    objects: &O,
    references: &mut CachedReferences,
    id: u64,
    target: &mut W,
) -> Result<(), PassFault<ProductFault, O::Fault>>
    requires references { AreCachedReferences (O.make_up objects.now (size_of heap.now) (facts_of heap.now))
        (O.agree objects.now (size_of heap.now) (facts_of heap.now)) (size_of heap.now) references.old }
    requires well { W.health target.old ≡ Well }
    ensures ends { EndsPassed (O.make_up objects.now (size_of heap.now) (facts_of heap.now))
        (O.agree objects.now (size_of heap.now) (facts_of heap.now)) (O.tells objects.now (size_of heap.now) (facts_of heap.now))
        (λ all. IsKeepsText (size_of heap.now) all id) W.written W.health target.old target.new result }
    ensures references { AreCachedReferences (O.make_up objects.now (size_of heap.now) (facts_of heap.now))
        (O.agree objects.now (size_of heap.now) (facts_of heap.now)) (size_of heap.now) references.new }
{
    let made = match kept_tree(alloc, heap, objects, references, id) {
        Ok(made) => made,
        Err(stop) => return Err(stop_of_pass(stop)),
    };
    let outcome = write_from_tree(alloc, heap, objects, &made, id, target);
    let KeptTree { retained, .. } = made;
    references.keep_retained(retained);
    outcome
}
