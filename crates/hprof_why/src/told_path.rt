//! A path in words.

ghost use Rattle.std.specs.Prelude.{ℕ, ◌≡◌, List};
ghost use Rattle.hprof_devices.specs.declared.health.Health.TheVariants.{Well};
ghost use Rattle.hprof_heap.specs.HeapFacts.{facts_of, size_of};
ghost use Rattle.hprof_edges.specs.LeftOut.{IsKept, fields_in};
ghost use Rattle.hprof_lines.specs.Stopping.{LeavesTarget, WritesText};
ghost use Rattle.hprof_holders.specs.Views.{IsView};
ghost use Rattle.hprof_why.specs.WhyText.{ArePathFindings, IsToldPath, PathFindings};

use crate::parts::{node_line, write_parts};
use crate::path::Path;
use hprof_devices::Target;
use hprof_edges::LeftOut;
use hprof_engine::ProductFault;
use hprof_holders::{HeapView, write_roots};
use hprof_lines::write_line;
use hprof_reach::roots_of;
use hprof_reports::distance_line;
use std::alloc::Global;

/// Writes a path: the distance, the roots of the first node, this node, and the parts of the rest. Each step is by the least edge without
/// those by the fields in `left_out`. If it stops, some of it was written, from the front.
pub(crate) fn write_path<W: Target>(
    alloc: Global,
    view: HeapView<'_>,
    left_out: &LeftOut,
    path: &Path,
    target: &mut W,
) -> Result<(), ProductFault>
    requires view { IsView view }
    requires well { W.health target.old ≡ Well }
    ensures bytes { (found : PathFindings) (text : List ℕ)
        → ArePathFindings (size_of view.entry.heap.now) (facts_of view.entry.heap.now) found
        → IsToldPath (IsKept (fields_in left_out.now) (facts_of view.entry.heap.now)) (size_of view.entry.heap.now)
        (facts_of view.entry.heap.now) found path.now.distance path.now.nodes.items text
        → WritesText (W.written target.old) (W.written target.new) result text }
    ensures health { LeavesTarget result (W.health target.new) }
{
    let Some((first, rest)) = path.nodes.split_first() else {
        return Ok(());
    };
    let roots = roots_of(alloc, view.heap, *first)?;
    write_line(distance_line(alloc, path.distance), target)?;
    write_roots(alloc, view, &roots, target)?;
    write_line(node_line(alloc, view, *first), target)?;
    write_parts(alloc, view, left_out, *first, rest, target)
}
