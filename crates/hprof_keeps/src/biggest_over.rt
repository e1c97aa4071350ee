//! The report `biggest` by passes over objects.

ghost use Rattle.std.specs.Prelude.{◌≡◌, List, IfOk};
ghost use Rattle.hprof_items.specs.FactValue.{FactValue};
ghost use Rattle.hprof_devices.specs.declared.health.Health.TheVariants.{Well};
ghost use Rattle.hprof_heap.specs.HeapFacts.{facts_of, size_of};
ghost use Rattle.hprof_passes.specs.Finding.{Finds};
ghost use Rattle.hprof_lines.specs.Passed.{EndsPassed};
ghost use Rattle.hprof_retained.specs.CachedReferences.{AreCachedReferences};
ghost use Rattle.hprof_lines.specs.Stopping.{LeavesTarget, WritesText};
ghost use Rattle.hprof_describe.specs.Findings.{AreFindings, Findings};
ghost use Rattle.hprof_keeps.specs.BiggestText.{IsBiggestText};
ghost use Rattle.hprof_keeps.specs.Chosen.{ClassesAscend, IsChosen};
ghost use Rattle.hprof_keeps.specs.Kept.{ArePlaces, nodes_at};
ghost use Rattle.hprof_keeps.specs.KeepsText.{above_lines};
ghost use Rattle.hprof_keeps.specs.Order.{retained_in};
ghost use Rattle.hprof_keeps.specs.PlaceTaken.{IsChosenTree};
ghost use Rattle.hprof_keeps.specs.declared.choice.Choice.{Choice};

use crate::choice::Choice;
use crate::chosen_over::chosen_over;
use crate::named::named_heap;
use crate::nodes::write_nodes;
use hprof_devices::Target;
use hprof_engine::ProductFault;
use hprof_heap::Heap;
use hprof_lines::stop_of_pass;
use hprof_naming::ClassNames;
use hprof_passes::{Objects, PassFault};
use hprof_retained::{CachedReferences, Retained};
use std::alloc::{AllocError, Global};

/// A tree of dominators, and places in it.
#[derive(Drop)]
pub(crate) struct ChosenTree {
    pub(crate) retained: Retained,
    pub(crate) places: Vec<usize>,
}

/// Returns the tree of dominators of the strong references that objects make up with a heap, and the places of the nodes of a choice.
///
/// # Errors
///
/// Those of `take_retained` and `chosen_over`.
fn chosen_tree<O: Objects>(
    alloc: Global,
    heap: &Heap,
    objects: &O,
    references: &mut CachedReferences,
    choice: Choice<'_>,
) -> Result<ChosenTree, PassFault<AllocError, O::Fault>>
    requires references { AreCachedReferences (O.make_up objects.now (size_of heap.now) (facts_of heap.now))
        (O.agree objects.now (size_of heap.now) (facts_of heap.now)) (size_of heap.now) references.old }
    requires ascend { ClassesAscend choice }
    ensures places { IfOk result (λ made. ArePlaces made.retained made.places.items) }
    ensures made { Finds (O.make_up objects.now (size_of heap.now) (facts_of heap.now))
        (O.agree objects.now (size_of heap.now) (facts_of heap.now)) (O.tells objects.now (size_of heap.now) (facts_of heap.now))
        (λ all. IsChosenTree (size_of heap.now) all choice.entry) result }
    ensures references { AreCachedReferences (O.make_up objects.now (size_of heap.now) (facts_of heap.now))
        (O.agree objects.now (size_of heap.now) (facts_of heap.now)) (size_of heap.now) references.new }
{
    let retained = references.take_retained(alloc, heap, objects)?;
    match chosen_over(alloc, heap, objects, &retained, choice) {
        Ok(places) => Ok(ChosenTree { retained, places }),
        Err(stop) => Err(stop),
    }
}

/// Writes the lines of the nodes at these places, with the words of a heap in memory. If it stops, some of them were written, from the
/// front.
fn write_in_memory<W: Target>(
    alloc: Global,
    heap: &Heap,
    retained: &Retained,
    places: &[usize],
    target: &mut W,
) -> Result<(), ProductFault>
    requires places { ArePlaces retained.now places.now }
    requires well { W.health target.old ≡ Well }
    ensures bytes { (found : Findings) → AreFindings (size_of heap.now) (facts_of heap.now) found
        → WritesText (W.written target.old) (W.written target.new) result
        (above_lines found (retained_in retained.now) (nodes_at retained.now places.now)) }
    ensures health { LeavesTarget result (W.health target.new) }
{
    let classes = ClassNames::of(alloc, heap)?;
    write_nodes(alloc, heap, &classes, retained, "", places, target)
}

/// Writes the nodes of a choice from a tree of dominators.
///
/// # Errors
///
/// Those of [`write_biggest_over`].
fn write_from_tree<O: Objects, W: Target>(
    alloc: Global,
    heap: &Heap,
    objects: &O,
    made: &ChosenTree,
    target: &mut W,
) -> Result<(), PassFault<ProductFault, O::Fault>>
    requires agree { O.agree objects.now (size_of heap.now) (facts_of heap.now) }
    requires places { ArePlaces made.now.retained made.now.places.items }
    requires well { W.health target.old ≡ Well }
    ensures { (choice : Choice) → ((all : List FactValue) → O.make_up objects.now (size_of heap.now) (facts_of heap.now) all
        → IsChosenTree (size_of heap.now) all choice made.now)
        → EndsPassed (O.make_up objects.now (size_of heap.now) (facts_of heap.now))
        (O.agree objects.now (size_of heap.now) (facts_of heap.now)) (O.tells objects.now (size_of heap.now) (facts_of heap.now))
        (λ all. IsBiggestText (size_of heap.now) all (IsChosen all choice)) W.written W.health target.old target.new result }
{
    let small = match named_heap(alloc, heap, objects, &made.retained, &made.places, &[]) {
        Ok(small) => small,
        Err(stop) => return Err(stop_of_pass(stop)),
    };
    match write_in_memory(alloc, &small, &made.retained, &made.places, target) {
        Ok(()) => Ok(()),
        Err(stop) => Err(PassFault::Sink(stop)),
    }
}

/// Writes the report `biggest` on a choice of classes and objects, as [`write_biggest`](crate::write_biggest) does. The heap has all facts
/// but the objects, which are gone through four or five times if nothing is kept; then some are picked, one to four times. Memory holds
/// the tree of dominators, and of the objects first those of all classes if the choice has class dumps, and then only these:
///
/// - those of the choice that strong references reach;
/// - those that the texts of strings and the names of threads among them are read from.
///
/// # Errors
///
/// - `Sink`: the writer failed or memory ran out. The bytes written are the beginning of the report.
/// - `Lost`: the objects cannot be gone through. Nothing was written.
pub fn write_biggest_over<O: Objects, W: Target>(
    alloc: Global,
    heap: &Heap,
    objects: &O,
    references: &mut CachedReferences,
    choice: Choice<'_>,
    target: &mut W,
) -> Result<(), PassFault<ProductFault, O::Fault>>
    requires references { AreCachedReferences (O.make_up objects.now (size_of heap.now) (facts_of heap.now))
        (O.agree objects.now (size_of heap.now) (facts_of heap.now)) (size_of heap.now) references.old }
    requires ascend { ClassesAscend choice }
    requires well { W.health target.old ≡ Well }
    ensures ends { EndsPassed (O.make_up objects.now (size_of heap.now) (facts_of heap.now))
        (O.agree objects.now (size_of heap.now) (facts_of heap.now)) (O.tells objects.now (size_of heap.now) (facts_of heap.now))
        (λ all. IsBiggestText (size_of heap.now) all (IsChosen all choice.entry)) W.written W.health target.old target.new result }
    ensures references { AreCachedReferences (O.make_up objects.now (size_of heap.now) (facts_of heap.now))
        (O.agree objects.now (size_of heap.now) (facts_of heap.now)) (size_of heap.now) references.new }
{
    let made = match chosen_tree(alloc, heap, objects, references, choice) {
        Ok(made) => made,
        Err(stop) => return Err(stop_of_pass(stop)),
    };
    let outcome = write_from_tree(alloc, heap, objects, &made, target);
    let ChosenTree { retained, .. } = made;
    references.keep_retained(retained);
    outcome
}
