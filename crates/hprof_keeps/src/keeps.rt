//! The report `keeps`: what keeps an object alive, and what it keeps alive itself.

ghost use Rattle.std.specs.Prelude.{◌≡◌, ◌++◌, ◌↔◌, ℕ, List, IfSome};
ghost use Rattle.hprof_devices.specs.declared.health.Health.TheVariants.{Well};
ghost use Rattle.hprof_edges.specs.Edges.{IsEdge};
ghost use Rattle.hprof_edges.specs.LeftOut.{IsLeftOut, fields_in};
ghost use Rattle.hprof_edges.specs.declared.edge.Edge.{Edge};
ghost use Rattle.hprof_heap.specs.HeapFacts.{facts_of, size_of};
ghost use Rattle.hprof_naming.specs.ClassNames.{AreClassNames};
ghost use Rattle.hprof_lines.specs.Stopping.{LeavesTarget, WritesText};
ghost use Rattle.hprof_describe.specs.Findings.{AreFindings, Findings};
ghost use Rattle.hprof_weak.specs.Weak.{IsWeak};
ghost use Rattle.hprof_retained.specs.Tree.{IsTreeOf, total_of};
ghost use Rattle.hprof_retained.specs.Weakly.{AreWeaklyHeld};
ghost use Rattle.hprof_keeps.specs.Kept.{ArePlaces, HasPlaces, kept_text, nodes_at};
ghost use Rattle.hprof_keeps.specs.KeepsText.{IsKeepsText, above_lines, child_lines, total_line, weakly_line};
ghost use Rattle.hprof_keeps.specs.Order.{retained_in};
ghost use Rattle.hprof_keeps.specs.WeakSum.{sum_of};

use crate::kept::{Kept, kept_of};
use crate::lines::{total_line, weakly_line};
use crate::nodes::write_nodes;
use crate::weakly::WeakSum;
use hprof_devices::Target;
use hprof_edges::LeftOut;
use hprof_engine::ProductFault;
use hprof_heap::{Heap, holds_of_heap};
use hprof_lines::{nothing_line, write_line, write_str};
use hprof_naming::ClassNames;
use hprof_retained::{Retained, WeaklyHeld};
use std::alloc::Global;

/// Writes the report on a node with these dominators and these nodes right below it. If it stops, some of it was written, from the front.
fn write_held<W: Target>(
    alloc: Global,
    heap: &Heap,
    classes: &ClassNames,
    retained: &Retained,
    above: &[usize],
    below: &[usize],
    target: &mut W,
) -> Result<(), ProductFault>
    requires classes { AreClassNames (facts_of heap.now) classes.now }
    requires above { ArePlaces retained.now above.now }
    requires below { ArePlaces retained.now below.now }
    requires well { W.health target.old ≡ Well }
    ensures bytes { (found : Findings) → AreFindings (size_of heap.now) (facts_of heap.now) found
        → WritesText (W.written target.old) (W.written target.new) result (total_line (total_of retained.now)
        ++ (above_lines found (retained_in retained.now) (nodes_at retained.now above.now)
        ++ child_lines found (retained_in retained.now) (nodes_at retained.now below.now))) }
    ensures health { LeavesTarget result (W.health target.new) }
{
    write_line(total_line(alloc, retained), target)?;
    write_nodes(alloc, heap, classes, retained, "", above, target)?;
    write_nodes(alloc, heap, classes, retained, "  ", below, target)
}

/// Writes the report on the roots together, with these nodes right below them. If it stops, some of it was written, from the front.
fn write_roots<W: Target>(
    alloc: Global,
    heap: &Heap,
    classes: &ClassNames,
    retained: &Retained,
    weakly: &WeakSum,
    below: &[usize],
    target: &mut W,
) -> Result<(), ProductFault>
    requires classes { AreClassNames (facts_of heap.now) classes.now }
    requires below { ArePlaces retained.now below.now }
    requires well { W.health target.old ≡ Well }
    ensures bytes { (found : Findings) → AreFindings (size_of heap.now) (facts_of heap.now) found
        → WritesText (W.written target.old) (W.written target.new) result (total_line (total_of retained.now)
        ++ (weakly_line (sum_of weakly.now) ++ child_lines found (retained_in retained.now) (nodes_at retained.now below.now))) }
    ensures health { LeavesTarget result (W.health target.new) }
{
    write_line(total_line(alloc, retained), target)?;
    write_line(weakly_line(alloc, weakly), target)?;
    write_nodes(alloc, heap, classes, retained, "  ", below, target)
}

/// Writes what is told of an identifier. The heap needs the objects that the words for the nodes at these places are read from. If it
/// stops, some of it was written, from the front.
pub(crate) fn write_kept<W: Target>(
    alloc: Global,
    heap: &Heap,
    classes: &ClassNames,
    retained: &Retained,
    id: u64,
    kept: &Kept,
    target: &mut W,
) -> Result<(), ProductFault>
    requires classes { AreClassNames (facts_of heap.now) classes.now }
    requires places { HasPlaces retained.now kept.now }
    requires well { W.health target.old ≡ Well }
    ensures bytes { (found : Findings) → AreFindings (size_of heap.now) (facts_of heap.now) found
        → WritesText (W.written target.old) (W.written target.new) result (kept_text found retained.now id kept.now) }
    ensures health { LeavesTarget result (W.health target.new) }
{
    match kept {
        Kept::Roots { weakly, below } => {
            write_roots(alloc, heap, classes, retained, weakly, below, target)
        }
        Kept::Held { above, below } => {
            write_held(alloc, heap, classes, retained, above, below, target)
        }
        Kept::Weakly => write_str("only by weak references\n", target),
        Kept::Nowise => write_str("not reached\n", target),
        Kept::Nothing => write_line(nothing_line(alloc, id), target),
    }
}

/// Writes the report `keeps` on an identifier. `weak` are the weak fields of the heap's classes, and `retained` is what its nodes retain.
/// `weakly` are the nodes that only weak references reach; they are made, and kept there, if they are wanted and not there yet: for an
/// identifier that strong references do not reach, and for 0.
///
/// The report has the total; then the dominators of the node, from the outermost to itself, and the nodes right below it, each with the
/// bytes and the number of the objects that it retains. The identifier 0 stands for the roots together. Of an identifier that strong
/// references do not reach the report says so.
///
/// If the writer fails or memory runs out, the bytes written are the beginning of the report. Its form is this project's own.
pub fn write_keeps<W: Target>(
    alloc: Global,
    heap: &Heap,
    classes: &ClassNames,
    weak: &LeftOut,
    retained: &Retained,
    weakly: &mut Option<WeaklyHeld>,
    id: u64,
    target: &mut W,
) -> Result<(), ProductFault>
    requires classes { AreClassNames (facts_of heap.now) classes.now }
    requires weak { (edge : Edge) → IsEdge (size_of heap.now) (facts_of heap.now) edge
        → IsLeftOut (fields_in weak.now) (facts_of heap.now) edge ↔ IsWeak (facts_of heap.now) edge }
    requires retained { IsTreeOf (size_of heap.now) (facts_of heap.now) retained.now }
    requires weakly { IfSome weakly.old (AreWeaklyHeld (size_of heap.now) (facts_of heap.now)) }
    requires well { W.health target.old ≡ Well }
    ensures bytes { (text : List ℕ) × IsKeepsText (size_of heap.now) (facts_of heap.now) id text
        × WritesText (W.written target.old) (W.written target.new) result text }
    ensures health { LeavesTarget result (W.health target.new) }
    ensures weakly { IfSome weakly.new (AreWeaklyHeld (size_of heap.now) (facts_of heap.now)) }
{
    holds_of_heap(heap);
    let kept = kept_of(alloc, heap, weak, retained, weakly, id)?;
    write_kept(alloc, heap, classes, retained, id, &kept, target)
}
