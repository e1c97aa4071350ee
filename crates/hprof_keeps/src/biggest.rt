//! The report `biggest`: the objects of a class or a type, those that retain most first.

ghost use Rattle.std.specs.Prelude.{◌≡◌, ℕ, List};
ghost use Rattle.hprof_devices.specs.declared.health.Health.TheVariants.{Well};
ghost use Rattle.hprof_heap.specs.HeapFacts.{facts_of, size_of};
ghost use Rattle.hprof_naming.specs.ClassNames.{AreClassNames};
ghost use Rattle.hprof_lines.specs.Stopping.{LeavesTarget, WritesText};
ghost use Rattle.hprof_retained.specs.Tree.{IsTreeOf};
ghost use Rattle.hprof_keeps.specs.BiggestText.{IsBiggestText};
ghost use Rattle.hprof_keeps.specs.Chosen.{ClassesAscend, IsChosen};

use crate::choice::Choice;
use crate::chosen::chosen_places;
use crate::nodes::write_nodes;
use hprof_devices::Target;
use hprof_engine::ProductFault;
use hprof_heap::{Heap, holds_of_heap};
use hprof_naming::ClassNames;
use hprof_retained::Retained;
use std::alloc::Global;

/// Writes the report `biggest` on a choice of classes and objects. `retained` is what the nodes of the heap retain.
///
/// The report has a line for each of them that strong references reach from a GC root, with the bytes and the number of the objects that it
/// retains: those that retain the most bytes first, then those that retain the most objects, then by identifier. It is empty if there are
/// none.
///
/// If the writer fails or memory runs out, the bytes written are the beginning of the report. Its form is this project's own.
pub fn write_biggest<W: Target>(
    alloc: Global,
    heap: &Heap,
    classes: &ClassNames,
    retained: &Retained,
    choice: Choice<'_>,
    target: &mut W,
) -> Result<(), ProductFault>
    requires classes { AreClassNames (facts_of heap.now) classes.now }
    requires retained { IsTreeOf (size_of heap.now) (facts_of heap.now) retained.now }
    requires ascend { ClassesAscend choice }
    requires well { W.health target.old ≡ Well }
    ensures bytes { (text : List ℕ) × IsBiggestText (size_of heap.now) (facts_of heap.now) (IsChosen (facts_of heap.now) choice.entry) text
        × WritesText (W.written target.old) (W.written target.new) result text }
    ensures health { LeavesTarget result (W.health target.new) }
{
    holds_of_heap(heap);
    let places = chosen_places(alloc, heap, retained, choice)?;
    write_nodes(alloc, heap, classes, retained, "", &places, target)
}
