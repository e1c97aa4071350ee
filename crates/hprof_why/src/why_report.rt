//! The report `why`: the shortest path of strong references from a GC root, with names.

ghost use Rattle.std.specs.Prelude.{◌≡◌, ◌⊎◌, ◌↔◌, ℕ, List, IfSome, IsTrue};
ghost use Rattle.hprof_devices.specs.declared.health.Health.TheVariants.{Well};
ghost use Rattle.hprof_edges.specs.LeftOut.{IsKept, fields_in};
ghost use Rattle.hprof_heap.specs.HeapFacts.{facts_of, size_of};
ghost use Rattle.hprof_holders.specs.Views.{IsView};
ghost use Rattle.hprof_reach.specs.Reaching.{IsDumped, IsReach, IsReachBy};
ghost use Rattle.hprof_lines.specs.Stopping.{LeavesTarget, WritesText};
ghost use Rattle.hprof_why.specs.Paths.{TellsFound, TellsReached};
ghost use Rattle.hprof_why.specs.WhyText.{ArePathFindings, IsWhyText, PathFindings};

use crate::reached::{Reached, reached_of};
use crate::told_path::write_path;
use hprof_devices::Target;
use hprof_edges::LeftOut;
use hprof_engine::ProductFault;
use hprof_heap::{Heap, find_class, find_object, holds_of_heap};
use hprof_holders::HeapView;
use hprof_lines::{nothing_line, write_line, write_str};
use hprof_reach::Reach;
use std::alloc::Global;

/// Writes how an identifier is reached: the path by strong edges; or the line that tells that there is none, and the path by all; or that
/// no edges lead there. If it stops, some of it was written, from the front.
fn write_reached<W: Target>(
    alloc: Global,
    view: HeapView<'_>,
    reached: &Reached,
    target: &mut W,
) -> Result<(), ProductFault>
    requires well { W.health target.old ≡ Well }
    requires view { IsView view }
    ensures bytes { (found : PathFindings) (text : List ℕ)
        → ArePathFindings (size_of view.entry.heap.now) (facts_of view.entry.heap.now) found
        → TellsReached (size_of view.entry.heap.now) (facts_of view.entry.heap.now) found reached.now text
        → WritesText (W.written target.old) (W.written target.new) result text }
    ensures health { LeavesTarget result (W.health target.new) }
{
    match reached {
        Reached::Strongly(path) => write_path(alloc, view, view.weak, path, target),
        Reached::Weakly(path) => {
            write_str("only by weak references\n", target)?;
            write_path(alloc, view, &LeftOut::none(alloc), path, target)
        }
        Reached::Nowise => write_str("not reached\n", target),
    }
}

/// Returns whether an identifier has a class dump or an object dump.
fn is_dumped(heap: &Heap, id: u64) -> bool
    ensures { IsTrue result ↔ IsDumped (facts_of heap.now) id }
{
    holds_of_heap(heap);
    find_class(heap, id).is_some() || find_object(heap, id).is_some()
}

/// Writes how an identifier is reached, or that it has no dump. If it stops, some of it was written, from the front.
pub(crate) fn write_told<W: Target>(
    alloc: Global,
    view: HeapView<'_>,
    id: u64,
    reached: &Reached,
    target: &mut W,
) -> Result<(), ProductFault>
    requires well { W.health target.old ≡ Well }
    requires view { IsView view }
    ensures bytes { (found : PathFindings) (text : List ℕ)
        → ArePathFindings (size_of view.entry.heap.now) (facts_of view.entry.heap.now) found
        → TellsFound (size_of view.entry.heap.now) (facts_of view.entry.heap.now) found id reached.now text
        → WritesText (W.written target.old) (W.written target.new) result text }
    ensures health { LeavesTarget result (W.health target.new) }
{
    if is_dumped(view.heap, id) {
        write_reached(alloc, view, reached, target)
    } else {
        write_line(nothing_line(alloc, id), target)
    }
}

/// Writes the report `why` on an identifier. `strong` is the search without the weak fields of `view`. `all` is the search by all edges; it
/// is made, and kept there, if it is wanted and not there yet.
///
/// The report has the shortest path by strong references, or if there is none `only by weak references` and the shortest path by all; or
/// that no root leads to the identifier, or that it has no dump. If the writer fails or memory runs out, the bytes written are the
/// beginning of the report.
pub fn write_why<W: Target>(
    alloc: Global,
    view: HeapView<'_>,
    strong: &Reach,
    all: &mut Option<Reach>,
    id: u64,
    target: &mut W,
) -> Result<(), ProductFault>
    requires well { W.health target.old ≡ Well }
    requires view { IsView view }
    requires strong { IsReachBy (IsKept (fields_in view.weak.now) (facts_of view.heap.now)) (size_of view.heap.now)
        (facts_of view.heap.now) strong.now }
    requires all { IfSome all.old (IsReach (size_of view.heap.now) (facts_of view.heap.now)) }
    ensures bytes { (text : List ℕ) × IsWhyText (size_of view.entry.heap.now) (facts_of view.entry.heap.now) id text
        × WritesText (W.written target.old) (W.written target.new) result text }
    ensures health { LeavesTarget result (W.health target.new) }
    ensures all { IfSome all.new (IsReach (size_of view.entry.heap.now) (facts_of view.entry.heap.now)) }
{
    holds_of_heap(view.heap);
    let reached = if is_dumped(view.heap, id) {
        reached_of(alloc, view.heap, view.weak, strong, all, id)?
    } else {
        Reached::Nowise
    };
    write_told(alloc, view, id, &reached, target)
}
