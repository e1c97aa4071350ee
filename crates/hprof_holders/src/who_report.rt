//! The report `who`: the roots of a class or an object, and each reference to it, with names.

ghost use Rattle.std.specs.Prelude.{◌≡◌, ◌↔◌, ℕ, List, [], IfOk, IsTrue, map, string_bytes};
ghost use Rattle.std.specs.List.{AllByRecursion, flat_map};
ghost use Rattle.hprof_values.specs.declared.root.Root.{Root};
ghost use Rattle.hprof_devices.specs.declared.health.Health.TheVariants.{Well};
ghost use Rattle.hprof_heap.specs.HeapFacts.{facts_of, size_of};
ghost use Rattle.hprof_edges.specs.Edges.{AreReferrers, IsEdge};
ghost use Rattle.hprof_reach.specs.Roots.{AreRootsOf};
ghost use Rattle.hprof_lines.specs.Stopping.{LeavesTarget, WritesText};
ghost use Rattle.hprof_describe.specs.Findings.{AreFindings, Findings};
ghost use Rattle.hprof_holders.specs.ThreadFindings.{AreThreadFindings, ThreadFindings};
ghost use Rattle.hprof_holders.specs.Steps.{AreEdgeFindings, EdgeFindings};
ghost use Rattle.hprof_holders.specs.SumCounts.{AreCounted, sum_value};
ghost use Rattle.hprof_holders.specs.Sums.{AreSums, SumValue};
ghost use Rattle.hprof_holders.specs.Views.{IsView};
ghost use Rattle.hprof_holders.specs.WhoText.{IsWhoText, edge_kind, edge_line, none_line, referred_text};
ghost use Rattle.hprof_holders.specs.WhoText.{roots_of_some, sum_line, sums_text, who_text};

use crate::root_lines::write_roots;
use crate::steps::{Step, step_kind, step_of, step_text};
use crate::sums::{Sum, Sums};
use crate::view::HeapView;
use hprof_describe::{kind_text, node_text};
use hprof_devices::Target;
use hprof_edges::Edge;
use hprof_engine::ProductFault;
use hprof_heap::{Heap, find_class, find_object, holds_of_heap};
use hprof_lines::{nothing_line, write_line};
use hprof_reach::roots_of;
use hprof_reports::FieldNames;
use hprof_values::Root;
use std::alloc::{AllocError, Global};

/// The number of edges above which they are added up too.
const MOST_EDGES: usize = 20;

/// Returns the line of an edge: what refers, and by which step.
fn edge_line(alloc: Global, view: HeapView<'_>, step: Step) -> Result<String, AllocError>
    requires { IsView view }
    ensures { (found : Findings) (names : EdgeFindings) → AreFindings (size_of view.entry.heap.now) (facts_of view.entry.heap.now) found
        → step.name ≡ names.name step.edge → step.is_weak ≡ names.is_weak step.edge
        → IfOk result (λ line. string_bytes line ≡ edge_line found names step.edge) }
{
    let node = node_text(alloc, view.heap, view.classes, step.edge.from)?;
    let words = step_text(alloc, view.heap, step)?;
    format!(in alloc; "{node} {words}\n")
}

/// Returns what refers and by which step, without the identifier, the name of a thread and the place.
fn edge_kind(alloc: Global, view: HeapView<'_>, step: Step) -> Result<String, AllocError>
    requires { IsView view }
    ensures { (found : Findings) (names : EdgeFindings) → AreFindings (size_of view.entry.heap.now) (facts_of view.entry.heap.now) found
        → step.name ≡ names.name step.edge → step.is_weak ≡ names.is_weak step.edge
        → IfOk result (λ text. string_bytes text ≡ edge_kind found names step.edge) }
{
    let kind = kind_text(alloc, view.heap, view.classes, step.edge.from)?;
    let words = step_kind(alloc, view.heap, step)?;
    format!(in alloc; "{kind} {words}")
}

/// Counts what refers and by which step. No count is above the number of edges.
fn count_edges(alloc: Global, view: HeapView<'_>, edges: &[Edge]) -> Result<Sums, AllocError>
    requires { IsView view }
    ensures { (found : Findings) (names : EdgeFindings) → AreFindings (size_of view.entry.heap.now) (facts_of view.entry.heap.now) found
        → AreEdgeFindings (size_of view.entry.heap.now) (facts_of view.entry.heap.now) names
        → AllByRecursion (IsEdge (size_of view.entry.heap.now) (facts_of view.entry.heap.now)) edges.now
        → IfOk result (AreCounted (map (edge_kind found names) edges.now)) }
{
    let mut names = FieldNames::new(alloc);
    let mut sums = Sums::new(alloc);
    let mut rest = edges;
    while let Some((edge, after)) = rest.split_first() {
        let step = step_of(view, *edge, &mut names)?;
        let kind = edge_kind(alloc, view, step)?;
        sums.add(kind)?;
        rest = after;
    }
    Ok(sums)
}

/// Returns the line of a sum.
fn sum_line(alloc: Global, sum: &Sum) -> Result<String, AllocError>
    ensures { IfOk result (λ line. string_bytes line ≡ sum_line (sum_value sum.now)) }
{
    let count = sum.count;
    let text = sum.text.as_str();
    format!(in alloc; "{count} times {text}\n")
}

/// Writes the line of each sum. If it stops, some of them were written, from the front.
fn write_sums<W: Target>(alloc: Global, sums: &[Sum], target: &mut W) -> Result<(), ProductFault>
    requires { W.health target.old ≡ Well }
    ensures bytes { WritesText (W.written target.old) (W.written target.new) result (flat_map sum_line (map sum_value sums.now)) }
    ensures health { LeavesTarget result (W.health target.new) }
{
    let mut rest = sums;
    while let Some((sum, after)) = rest.split_first() {
        write_line(sum_line(alloc, sum), target)?;
        rest = after;
    }
    Ok(())
}

/// Writes the sums of more than 20 edges. If it stops, some of them were written, from the front.
fn write_summed<W: Target>(
    alloc: Global,
    view: HeapView<'_>,
    edges: &[Edge],
    target: &mut W,
) -> Result<(), ProductFault>
    requires view { IsView view }
    requires well { W.health target.old ≡ Well }
    ensures bytes { (found : Findings) (names : EdgeFindings) (sums : List SumValue)
        → AreFindings (size_of view.entry.heap.now) (facts_of view.entry.heap.now) found
        → AreEdgeFindings (size_of view.entry.heap.now) (facts_of view.entry.heap.now) names
        → AllByRecursion (IsEdge (size_of view.entry.heap.now) (facts_of view.entry.heap.now)) edges.now
        → AreSums (map (edge_kind found names) edges.now) sums
        → WritesText (W.written target.old) (W.written target.new) result (sums_text edges.now sums) }
    ensures health { LeavesTarget result (W.health target.new) }
{
    if edges.len() <= MOST_EDGES {
        return Ok(());
    }
    let counted = count_edges(alloc, view, edges)?;
    let sums = counted.ordered(alloc)?;
    write_sums(alloc, &sums, target)
}

/// Writes the line of each edge. If it stops, some of them were written, from the front.
fn write_edges<W: Target>(
    alloc: Global,
    view: HeapView<'_>,
    edges: &[Edge],
    target: &mut W,
) -> Result<(), ProductFault>
    requires view { IsView view }
    requires well { W.health target.old ≡ Well }
    ensures bytes { (found : Findings) (names : EdgeFindings)
        → AreFindings (size_of view.entry.heap.now) (facts_of view.entry.heap.now) found
        → AreEdgeFindings (size_of view.entry.heap.now) (facts_of view.entry.heap.now) names
        → AllByRecursion (IsEdge (size_of view.entry.heap.now) (facts_of view.entry.heap.now)) edges.now
        → WritesText (W.written target.old) (W.written target.new) result (flat_map (edge_line found names) edges.now) }
    ensures health { LeavesTarget result (W.health target.new) }
{
    let mut names = FieldNames::new(alloc);
    let mut rest = edges;
    while let Some((edge, after)) = rest.split_first() {
        let step = step_of(view, *edge, &mut names)?;
        write_line(edge_line(alloc, view, step), target)?;
        rest = after;
    }
    Ok(())
}

/// Writes the roots, the sums of more than 20 edges, and the line of each edge. If it stops, some of it was written, from the front.
fn write_referred<W: Target>(
    alloc: Global,
    view: HeapView<'_>,
    roots: &[Root],
    edges: &[Edge],
    target: &mut W,
) -> Result<(), ProductFault>
    requires view { IsView view }
    requires well { W.health target.old ≡ Well }
    ensures bytes { (found : Findings) (threads : ThreadFindings) (names : EdgeFindings) (sums : List SumValue)
        → AreFindings (size_of view.entry.heap.now) (facts_of view.entry.heap.now) found
        → AreThreadFindings (facts_of view.entry.heap.now) found.naming threads
        → AreEdgeFindings (size_of view.entry.heap.now) (facts_of view.entry.heap.now) names
        → AllByRecursion (IsEdge (size_of view.entry.heap.now) (facts_of view.entry.heap.now)) edges.now
        → AreSums (map (edge_kind found names) edges.now) sums
        → WritesText (W.written target.old) (W.written target.new) result (referred_text found threads names roots.now edges.now sums) }
    ensures health { LeavesTarget result (W.health target.new) }
{
    write_roots(alloc, view, roots, target)?;
    write_summed(alloc, view, edges, target)?;
    write_edges(alloc, view, edges, target)
}

/// Returns the line that says that nothing refers to an identifier, or that it has no dump.
fn none_line(alloc: Global, view: HeapView<'_>, id: u64) -> Result<String, AllocError>
    ensures { (found : Findings) → AreFindings (size_of view.entry.heap.now) (facts_of view.entry.heap.now) found
        → IfOk result (λ line. string_bytes line ≡ none_line id (found.class id) (found.object id)) }
{
    holds_of_heap(view.heap);
    match (find_class(view.heap, id), find_object(view.heap, id)) {
        (None, None) => nothing_line(alloc, id),
        _ => format!(in alloc; "nothing refers to {id:x}\n"),
    }
}

/// Returns whether there are neither roots nor edges.
fn are_none(roots: &[Root], edges: &[Edge]) -> bool
    ensures { IsTrue result ↔ ((roots.now ≡ []) × (edges.now ≡ [])) }
{
    roots.is_empty() && edges.is_empty()
}

/// Writes what was found of an identifier: its roots and the edges to it, or that there are none. If it stops, some of it was written, from
/// the front.
fn write_found<W: Target>(
    alloc: Global,
    view: HeapView<'_>,
    id: u64,
    roots: &[Root],
    edges: &[Edge],
    target: &mut W,
) -> Result<(), ProductFault>
    requires view { IsView view }
    requires well { W.health target.old ≡ Well }
    ensures bytes { (found : Findings) (threads : ThreadFindings) (names : EdgeFindings) (sums : List SumValue)
        → AreFindings (size_of view.entry.heap.now) (facts_of view.entry.heap.now) found
        → AreThreadFindings (facts_of view.entry.heap.now) found.naming threads
        → AreEdgeFindings (size_of view.entry.heap.now) (facts_of view.entry.heap.now) names
        → AllByRecursion (IsEdge (size_of view.entry.heap.now) (facts_of view.entry.heap.now)) edges.now
        → AreSums (map (edge_kind found names) edges.now) sums
        → WritesText (W.written target.old) (W.written target.new) result (who_text found threads names id roots.now edges.now sums) }
    ensures health { LeavesTarget result (W.health target.new) }
{
    if are_none(roots, edges) {
        return write_line(none_line(alloc, view, id), target);
    }
    write_referred(alloc, view, roots, edges, target)
}

/// Returns the GC roots of an identifier, in canonical order. 0 has none.
fn roots_of_some(alloc: Global, heap: &Heap, id: u64) -> Result<Vec<Root>, AllocError>
    ensures { (roots : List Root) → AreRootsOf (facts_of heap.now) id roots → IfOk result (λ found. found.items ≡ roots_of_some id roots) }
{
    if id == 0 {
        return Ok(Vec::new(alloc));
    }
    roots_of(alloc, heap, id)
}

/// Writes the report `who` on an identifier, of which these are all edges to it, in order. `view` is what is kept of the heap.
///
/// The report has the identifier's GC roots, each with its thread; the sums of more than 20 edges, by what refers and by which step; and a
/// line for each edge. Without roots and edges it says that nothing refers to the identifier, or that it has no dump.
///
/// If the writer fails or memory runs out, the bytes written are the beginning of the report.
pub fn write_who<W: Target>(
    alloc: Global,
    view: HeapView<'_>,
    id: u64,
    edges: &[Edge],
    target: &mut W,
) -> Result<(), ProductFault>
    requires view { IsView view }
    requires edges { AreReferrers (size_of view.heap.now) (facts_of view.heap.now) id edges.now }
    requires well { W.health target.old ≡ Well }
    ensures bytes { (text : List ℕ) × IsWhoText (size_of view.entry.heap.now) (facts_of view.entry.heap.now) id text
        × WritesText (W.written target.old) (W.written target.new) result text }
    ensures health { LeavesTarget result (W.health target.new) }
{
    holds_of_heap(view.heap);
    let roots = roots_of_some(alloc, view.heap, id)?;
    write_found(alloc, view, id, &roots, edges, target)
}
