//! Making the sources of a graph.

ghost use Rattle.std.specs.Prelude.{◌≡◌, ℕ, Contains, IfOk};
ghost use Rattle.hprof_numbers.specs.Numbered.{nodes_in};
ghost use Rattle.hprof_numbers.specs.Predecessors.{IsSource, list_of, nodes_of};

use crate::edges::numbered_edges;
use crate::graph::Graph;
use crate::numbered::Numbered;
use crate::predecessors::Predecessors;
use crate::turning::turned;
use std::alloc::{AllocError, Global};

/// Returns for each node of a graph the nodes with an edge to it, in one pass over all edges. Identifiers that are no nodes share one list,
/// of the nodes with an edge to any of them. If memory runs out, the answer is `AllocError`.
pub fn predecessors_of<G: Graph>(
    alloc: Global,
    graph: &mut G,
    nodes: Numbered,
) -> Result<Predecessors, AllocError>
    requires { G.stands graph.old }
    ensures nodes { IfOk result (λ sources. nodes_of sources ≡ nodes_in nodes) }
    ensures all { IfOk result (λ sources. (from to : ℕ) → Contains (nodes_in nodes) from → G.leads graph.old from to
        → IsSource sources from to) }
    ensures only { IfOk result (λ sources. (from to : ℕ) → IsSource sources from to
        → (target : ℕ) × (list_of (nodes_in nodes) target ≡ list_of (nodes_in nodes) to) × G.leads graph.old from target) }
{
    let others = nodes.len();
    let Some(most) = others.checked_add(1) else {
        // So many do not fit the memory.
        return Err(AllocError);
    };
    let edges = numbered_edges(alloc, graph, &nodes, Some(others), most)?.with_empty_list(alloc)?;
    let lists = turned(alloc, &edges)?;
    Ok(Predecessors { nodes, lists })
}
