//! The report `who` on one identifier, for one report alone.

ghost use Rattle.std.specs.Prelude.{◌≡◌, ℕ, List};
ghost use Rattle.hprof_devices.specs.declared.health.Health.TheVariants.{Well};
ghost use Rattle.hprof_edges.specs.Edges.{AreReferrers};
ghost use Rattle.hprof_heap.specs.HeapFacts.{facts_of, size_of};
ghost use Rattle.hprof_holders.specs.WhoText.{IsWhoText};
ghost use Rattle.hprof_lines.specs.Stopping.{LeavesTarget, WritesText};

use crate::cache::OfHeap;
use crate::survey::{References, Survey, view_of};
use hprof_devices::Target;
use hprof_edges::Edge;
use hprof_engine::ProductFault;
use hprof_heap::{Heap, holds_of_heap};
use hprof_holders::write_who;
use std::alloc::Global;

/// Writes the report `who` on an identifier, of which these are all edges to it, in order. Nothing is kept for other reports. If the writer
/// fails or memory runs out, the bytes written are the beginning of the report.
pub(crate) fn write_who_once<W: Target>(
    alloc: Global,
    heap: &Heap,
    id: u64,
    edges: &[Edge],
    target: &mut W,
) -> Result<(), ProductFault>
    requires edges { AreReferrers (size_of heap.now) (facts_of heap.now) id edges.now }
    requires well { W.health target.old ≡ Well }
    ensures bytes { (text : List ℕ) × IsWhoText (size_of heap.now) (facts_of heap.now) id text
        × WritesText (W.written target.old) (W.written target.new) result text }
    ensures health { LeavesTarget result (W.health target.new) }
{
    holds_of_heap(heap);
    let survey = Survey::make(alloc, heap)?;
    let references = References::make(alloc, heap)?;
    let view = view_of(heap, &survey, &references);
    write_who(alloc, view, id, edges, target)
}
