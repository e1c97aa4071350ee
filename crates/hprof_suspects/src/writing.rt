//! The report `suspects`: where most of the memory is held, and what it falls apart into.

ghost use Rattle.std.specs.Prelude.{◌≡◌, ◌↔◌, ℕ, IfSome, List};
ghost use Rattle.hprof_devices.specs.declared.health.Health.TheVariants.{Well};
ghost use Rattle.hprof_edges.specs.Edges.{IsEdge};
ghost use Rattle.hprof_edges.specs.LeftOut.{IsLeftOut, fields_in};
ghost use Rattle.hprof_edges.specs.declared.edge.Edge.{Edge};
ghost use Rattle.hprof_heap.specs.HeapFacts.{facts_of, size_of};
ghost use Rattle.hprof_naming.specs.ClassNames.{AreClassNames};
ghost use Rattle.hprof_lines.specs.Stopping.{LeavesTarget, WritesText};
ghost use Rattle.hprof_weak.specs.Weak.{IsWeak};
ghost use Rattle.hprof_retained.specs.Tree.{IsTreeOf};
ghost use Rattle.hprof_retained.specs.Weakly.{AreWeaklyHeld};
ghost use Rattle.hprof_suspects.specs.SuspectsText.{IsSuspectsText};

use crate::report::suspects_text;
use hprof_devices::Target;
use hprof_edges::LeftOut;
use hprof_engine::ProductFault;
use hprof_heap::{Heap, holds_of_heap};
use hprof_lines::write_line;
use hprof_naming::ClassNames;
use hprof_retained::{Retained, WeaklyHeld};
use std::alloc::Global;

/// Writes the report `suspects`. `weak` are the weak fields of the heap's classes, and `retained` is what its nodes retain. `weakly` are
/// the nodes that only weak references reach; they are made, and kept there, if they are not there yet.
///
/// The report has the total and what only weak references reach; then, for each part of the heap that falls apart into pieces of at least a
/// tenth of all bytes, the bytes of the pieces, the nodes from the outermost down to the part, and what is right below it, added up by
/// label. The parts with the most bytes come first. The text is made before it is written.
///
/// If the writer fails or memory runs out, the bytes written are the beginning of the report. Its form is this project's own.
pub fn write_suspects<W: Target>(
    alloc: Global,
    heap: &Heap,
    names: &ClassNames,
    weak: &LeftOut,
    retained: &Retained,
    weakly: &mut Option<WeaklyHeld>,
    target: &mut W,
) -> Result<(), ProductFault>
    requires classes { AreClassNames (facts_of heap.now) names.now }
    requires weak { (edge : Edge) → IsEdge (size_of heap.now) (facts_of heap.now) edge
        → IsLeftOut (fields_in weak.now) (facts_of heap.now) edge ↔ IsWeak (facts_of heap.now) edge }
    requires retained { IsTreeOf (size_of heap.now) (facts_of heap.now) retained.now }
    requires weakly { IfSome weakly.old (AreWeaklyHeld (size_of heap.now) (facts_of heap.now)) }
    requires well { W.health target.old ≡ Well }
    ensures bytes { (text : List ℕ) × IsSuspectsText (size_of heap.now) (facts_of heap.now) text
        × WritesText (W.written target.old) (W.written target.new) result text }
    ensures health { LeavesTarget result (W.health target.new) }
    ensures weakly { IfSome weakly.new (AreWeaklyHeld (size_of heap.now) (facts_of heap.now)) }
{
    holds_of_heap(heap);
    let text = suspects_text(alloc, heap, names, weak, retained, weakly);
    write_line(text, target)
}
