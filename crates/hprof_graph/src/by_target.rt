//! Edges ordered by the identifier that they refer to.

ghost use Rattle.std.specs.Prelude.{◌≡◌, ◌↔◌, Contains};
ghost use Rattle.std.specs.List.Sorted.{IsStrictlySortedBy};
ghost use Rattle.hprof_edges.specs.declared.edge.Edge.{Edge};
ghost use Rattle.hprof_edges.specs.contracts.edge.EdgeOrd.TheImpl as edge_ord;
ghost use Rattle.hprof_graph.specs.ByTarget.{IsByTarget};

use hprof_edges::Edge;

/// An edge, ordered by the identifier that it refers to, and then as edges are.
#[derive(Clone, Copy, Debug, PartialEq, Eq, PartialOrd, Ord)]
struct TargetFirst {
    to: u64,
    edge: Edge,
}

/// Sorts edges by the identifier that they refer to, and then as edges are, and removes repetitions. Allocates nothing.
pub(crate) fn sort_by_target(edges: &mut Vec<Edge>)
    ensures sorted { IsByTarget edges.new.items }
    ensures same { (edge : Edge) → Contains edges.new.items edge ↔ Contains edges.old.items edge }
{
    edges.sort_unstable_by_key(|edge| TargetFirst {
        to: edge.to,
        edge: *edge,
    });
    edges.dedup();
}

/// Returns the edges to an identifier, by binary search. `edges` is sorted by the identifier that they refer to.
pub(crate) fn edges_to(edges: &[Edge], id: u64) -> &[Edge]
    ensures ascend { IsByTarget edges.now → IsStrictlySortedBy (edge_ord.ghosts).cmp result.now }
    ensures exact { IsByTarget edges.now → (edge : Edge) → Contains result.now edge
        ↔ (Contains edges.now edge × (edge.to ≡ id)) }
{
    let start = edges.partition_point(|edge| edge.to < id);
    let (_, rest) = edges.split_at(start);
    let count = rest.partition_point(|edge| edge.to <= id);
    let (run, _) = rest.split_at(count);
    run
}
