//! The parts of a path, written one by one.

ghost use Rattle.std.specs.Prelude.{◌≡◌, ◌++◌, ℕ, List, IfOk, codes, string_bytes};
ghost use Rattle.hprof_devices.specs.declared.health.Health.TheVariants.{Well};
ghost use Rattle.hprof_heap.specs.HeapFacts.{facts_of, size_of};
ghost use Rattle.hprof_edges.specs.declared.edge.Edge.{Edge};
ghost use Rattle.hprof_describe.specs.Findings.{AreFindings, Findings};
ghost use Rattle.hprof_describe.specs.Nodes.{node_text};
ghost use Rattle.hprof_naming.specs.Naming.{IsNaming, Naming};
ghost use Rattle.hprof_lines.specs.Stopping.{LeavesTarget, WritesText};
ghost use Rattle.hprof_holders.specs.Steps.{EdgeFindings, step_text};
ghost use Rattle.hprof_holders.specs.Views.{IsView};
ghost use Rattle.hprof_why.specs.WhyText.{ArePathFindings, PathFindings};
ghost use Rattle.hprof_why.specs.Walks.{IsPartsTextOf, front_text, more_line, step_by};

use crate::fronts::{Front, Place, front_of};
use crate::walk::Walk;
use hprof_describe::node_text;
use hprof_devices::Target;
use hprof_edges::LeftOut;
use hprof_engine::ProductFault;
use hprof_heap::Heap;
use hprof_holders::{HeapView, Step, step_text};
use hprof_lines::write_line;
use std::alloc::{AllocError, Global};

/// Returns the line of a step.
fn step_line(alloc: Global, heap: &Heap, step: Step) -> Result<String, AllocError>
    ensures { (naming : Naming) (edges : EdgeFindings) (edge : Edge) → IsNaming (facts_of heap.now) naming → step ≡ step_by edges edge
        → IfOk result (λ line. string_bytes line ≡ codes "  " ++ step_text naming edges edge ++ codes "\n") }
{
    let step = step_text(alloc, heap, step)?;
    format!(in alloc; "  {step}\n")
}

/// Returns the line of nodes that are left out, or an empty text if there are none.
fn more_line(alloc: Global, more: usize) -> Result<String, AllocError>
    ensures { IfOk result (λ line. string_bytes line ≡ more_line more) }
{
    if more == 0 {
        return Ok(String::new(alloc));
    }
    format!(in alloc; ".. {more} more\n")
}

/// Returns the line of a node.
pub(crate) fn node_line(alloc: Global, view: HeapView<'_>, node: u64) -> Result<String, AllocError>
    requires { IsView view }
    ensures { (found : Findings) → AreFindings (size_of view.entry.heap.now) (facts_of view.entry.heap.now) found
        → IfOk result (λ line. string_bytes line ≡ node_text found node ++ codes "\n") }
{
    let node = node_text(alloc, view.heap, view.classes, node)?;
    format!(in alloc; "{node}\n")
}

/// Writes the front of a path: its step, how many nodes are left out if any are, and the node behind. If it stops, the bytes written are
/// the beginning of that.
fn write_front<W: Target>(
    alloc: Global,
    view: HeapView<'_>,
    front: Front<'_>,
    target: &mut W,
) -> Result<(), ProductFault>
    requires view { IsView view }
    requires well { W.health target.old ≡ Well }
    ensures bytes { (found : PathFindings) (edge : Edge)
        → ArePathFindings (size_of view.entry.heap.now) (facts_of view.entry.heap.now) found
        → front.entry.step ≡ step_by found.edges edge
        → WritesText (W.written target.old) (W.written target.new) result
        (front_text found edge front.entry.more front.entry.behind.node) }
    ensures health { LeavesTarget result (W.health target.new) }
{
    write_line(step_line(alloc, view.heap, front.step), target)?;
    write_line(more_line(alloc, front.more), target)?;
    write_line(node_line(alloc, view, front.behind.node), target)
}

/// Writes the parts of a path from a node on. Each step is by the least edge without those by the fields in `left_out`. If it stops, some
/// of them were written, from the front.
pub(crate) fn write_parts<W: Target>(
    alloc: Global,
    view: HeapView<'_>,
    left_out: &LeftOut,
    first: u64,
    nodes: &[u64],
    target: &mut W,
) -> Result<(), ProductFault>
    requires view { IsView view }
    requires well { W.health target.old ≡ Well }
    ensures bytes { (found : PathFindings) (text : List ℕ)
        → ArePathFindings (size_of view.entry.heap.now) (facts_of view.entry.heap.now) found
        → IsPartsTextOf view.entry left_out.now found first nodes.now text
        → WritesText (W.written target.old) (W.written target.new) result text }
    ensures health { LeavesTarget result (W.health target.new) }
{
    let mut walk = Walk::new(alloc);
    let mut place = Place {
        node: first,
        rest: nodes,
    };
    while let Some((to, after)) = place.rest.split_first() {
        let found = front_of(alloc, view, left_out, place.node, *to, after, &mut walk)?;
        let Some(front) = found else {
            return Ok(());
        };
        write_front(alloc, view, front, target)?;
        place = front.behind;
    }
    Ok(())
}
