//! The report `path`: the distance of an identifier from the GC roots, and the shortest path to it.

ghost use Rattle.std.specs.Prelude.{◌≡◌, ℕ, List, IfOk, string_bytes};
ghost use Rattle.hprof_devices.specs.declared.health.Health.TheVariants.{Well};
ghost use Rattle.hprof_values.specs.declared.ids.IdSize.{IdSize};
ghost use Rattle.hprof_items.specs.FactValue.{FactValue};
ghost use Rattle.hprof_reach.specs.Reaching.{IsReach};
ghost use Rattle.hprof_reports.specs.PathText.{IsPathText, distance_line, node_line, nodes_text};
ghost use Rattle.hprof_lines.specs.Stopping.{LeavesTarget, WritesText};

use hprof_devices::Target;
use hprof_engine::ProductFault;
use hprof_lines::{write_line, write_str};
use hprof_reach::Reach;
use std::alloc::{AllocError, Global};

/// Returns the line of a distance. If memory runs out, the answer is `AllocError`.
pub fn distance_line(alloc: Global, distance: u64) -> Result<String, AllocError>
    ensures { IfOk result (λ line. string_bytes line ≡ distance_line distance) }
{
    format!(in alloc; "distance {distance}\n")
}

/// Returns the line of a node. If memory runs out, the answer is `AllocError`.
fn node_line(alloc: Global, node: u64) -> Result<String, AllocError>
    ensures { IfOk result (λ line. string_bytes line ≡ node_line node) }
{
    format!(in alloc; "{node:x}\n")
}

/// Writes a line for each node. If it stops, some of them were written, from the front.
fn write_nodes<W: Target>(alloc: Global, nodes: &[u64], target: &mut W) -> Result<(), ProductFault>
    requires { W.health target.old ≡ Well }
    ensures bytes { WritesText (W.written target.old) (W.written target.new) result (nodes_text nodes.now) }
    ensures health { LeavesTarget result (W.health target.new) }
{
    let mut rest = nodes;
    while let Some((node, after)) = rest.split_first() {
        write_line(node_line(alloc, *node), target)?;
        rest = after;
    }
    Ok(())
}

/// Writes the report `path` on an identifier from a search that was made before: its distance from the GC roots, then a line for
/// each node of the shortest path, or that no root reaches it. If the writer fails or memory runs out, the bytes written are the
/// beginning of the report.
pub fn write_path<W: Target>(
    alloc: Global,
    reach: &Reach,
    id: u64,
    target: &mut W,
) -> Result<(), ProductFault>
    requires { W.health target.old ≡ Well }
    ensures bytes { (ids : IdSize) (facts : List FactValue) → IsReach ids facts reach.now
        → (text : List ℕ) × IsPathText ids facts id text × WritesText (W.written target.old) (W.written target.new) result text }
    ensures health { LeavesTarget result (W.health target.new) }
{
    let distance = reach.distance(id);
    let path = reach.path(alloc, id)?;
    match (distance, path) {
        (Some(distance), Some(nodes)) => {
            write_line(distance_line(alloc, distance), target)?;
            write_nodes(alloc, &nodes, target)
        }
        _ => write_str("not reached\n", target),
    }
}
