//! Moving the edges to an identifier to the end.

ghost use Rattle.std.specs.Prelude.{◌≡◌, ◌≢◌, ◌↔◌, ◌≤◌, ◌<◌, ℕ, Contains, drop, slice_index_or, take, vec_len};
ghost use Rattle.std.specs.List.Sorted.{IsPermutation, IsSorted, IsStrictlySortedBy};
ghost use Rattle.hprof_edges.specs.declared.edge.Edge.{Edge};
ghost use Rattle.hprof_edges.specs.contracts.edge.EdgeOrd.TheImpl as edge_ord;

use hprof_edges::Edge;

/// Moves the edges to an identifier to the end, in one pass, and returns the number of the others.
fn move_behind(edges: &mut Vec<Edge>, id: u64) -> usize
    ensures within { result ≤ vec_len edges.new }
    ensures moved { IsPermutation edges.old.items edges.new.items }
    ensures others { (place : ℕ) (d : Edge) → place < result → (slice_index_or edges.new.items place d).to ≢ id }
    ensures behind { (place : ℕ) (d : Edge) → result ≤ place → place < vec_len edges.new
        → (slice_index_or edges.new.items place d).to ≡ id }
{
    let mut others = 0;
    let mut end = edges.len();
    while others < end {
        if edges[others].to == id {
            end -= 1;
            edges.swap(others, end);
        } else {
            others += 1;
        }
    }
    others
}

/// Sorts the edges from a place on.
fn sort_from(edges: &mut Vec<Edge>, start: usize)
    requires { start ≤ vec_len edges.old }
    ensures len { vec_len edges.new ≡ vec_len edges.old }
    ensures before { take start edges.new.items ≡ take start edges.old.items }
    ensures moved { IsPermutation (drop start edges.old.items) (drop start edges.new.items) }
    ensures sorted { IsSorted (edge_ord.ghosts).cmp (drop start edges.new.items) }
{
    edges[start..].sort_unstable();
}

/// Moves the edges to an identifier to the end, sorts them, and removes repetitions. Returns the place where they begin. Allocates nothing.
pub(crate) fn partition_by_target(edges: &mut Vec<Edge>, id: u64) -> usize
    ensures within { result ≤ vec_len edges.new }
    ensures ascend { IsStrictlySortedBy (edge_ord.ghosts).cmp (drop result edges.new.items) }
    ensures exact { (edge : Edge) → Contains (drop result edges.new.items) edge ↔ (Contains edges.old.items edge × (edge.to ≡ id)) }
    ensures same { (edge : Edge) → Contains edges.new.items edge ↔ Contains edges.old.items edge }
{
    let start = move_behind(edges, id);
    sort_from(edges, start);
    edges.dedup();
    edges.partition_point(|edge| edge.to != id)
}
