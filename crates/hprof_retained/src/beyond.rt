//! The search beyond what strong references reach.

ghost use Rattle.std.specs.Prelude.{◌≡◌, ◌↔◌, ◌⊎◌, ℕ, Contains, IfOk, IsTrue, List, length};
ghost use Rattle.std.specs.List.Sorted.{IsStrictlyIncreasing};
ghost use Rattle.hprof_values.specs.declared.ids.IdSize.{IdSize};
ghost use Rattle.hprof_items.specs.FactValue.{FactValue};
ghost use Rattle.hprof_edges.specs.declared.field_place.FieldPlace.{FieldPlace};
ghost use Rattle.hprof_numbers.specs.Lists.{LeadsWithin, count_in};
ghost use Rattle.hprof_numbers.specs.Numbered.{nodes_in};
ghost use Rattle.hprof_reach.specs.EdgesMade.{AreKeptEdges};
ghost use Rattle.hprof_search.specs.Search.{IsSearch};
ghost use Rattle.hprof_retained.specs.Border.{Crossing, IsCrossedTo, crossing_of, starts_of, steps_of};

use crate::border::{Border, joined};
use hprof_numbers::{Lists, Numbered};
use hprof_search::{ByLists, Search, WalksOf, search_numbered};
use std::alloc::{AllocError, Global};

/// Walks from some nodes on, over these and others.
struct FromBorder;

impl WalksOf for FromBorder {
    ghost Told = { Crossing };

    ghost starts = { λ crossing. starts_of crossing };

    ghost steps = { λ crossing. steps_of crossing };
}

/// Returns whether a search reached a node.
fn is_reached(search: &Search, node: u64) -> bool
    ensures { (crossing : Crossing) → IsSearch (starts_of crossing) (steps_of crossing) search.now
        → IsTrue result ↔ IsCrossedTo crossing node }
{
    search.is_found::<FromBorder>(node)
}

/// Returns those of some sorted nodes that a search reached, sorted. If memory runs out, the answer is `AllocError`.
fn reached_among(alloc: Global, search: &Search, nodes: &[u64]) -> Result<Vec<u64>, AllocError>
    requires { IsStrictlyIncreasing nodes.now }
    ensures ascend { IfOk result (λ reached. IsStrictlyIncreasing reached.items) }
    ensures exact { IfOk result (λ reached. (crossing : Crossing) → IsSearch (starts_of crossing) (steps_of crossing) search.now
        → (node : ℕ) → Contains reached.items node ↔ (Contains nodes.now node × IsCrossedTo crossing node)) }
{
    let mut reached = Vec::new(alloc);
    for node in nodes {
        if is_reached(search, *node) {
            reached.push(*node)?;
        }
    }
    Ok(reached)
}

/// Returns the nodes on both sides of a border, with their numbers. If memory runs out, the answer is `AllocError`.
pub(crate) fn numbered_around(alloc: Global, border: &Border<'_>) -> Result<Numbered, AllocError>
    ensures { IfOk result (λ numbered. (node : ℕ) → Contains (nodes_in numbered) node
        ↔ (Contains border.now.others.items node ⊎ Contains border.now.sources.items node)) }
{
    let all = joined(alloc, &border.others, &border.sources)?;
    Numbered::new(alloc, all)
}

/// Searches from the nodes inside a border, along the edges between `nodes`, and returns the nodes outside that it reached, sorted. If
/// memory runs out, the answer is `AllocError`.
pub(crate) fn reached_outside(
    alloc: Global,
    border: &Border<'_>,
    nodes: Numbered,
    edges: Lists,
) -> Result<Vec<u64>, AllocError>
    requires ascend { IsStrictlyIncreasing border.now.others.items }
    requires as_many { count_in edges ≡ length (nodes_in nodes) }
    requires leads { LeadsWithin edges }
    ensures ascend { IfOk result (λ reached. IsStrictlyIncreasing reached.items) }
    ensures exact { IfOk result (λ reached. (ids : IdSize) (facts : List FactValue) (fields : List FieldPlace)
        → AreKeptEdges ids facts fields (nodes_in nodes) edges → (node : ℕ) → Contains reached.items node
        ↔ (Contains border.now.others.items node
        × IsCrossedTo (crossing_of ids facts fields (nodes_in nodes) border.now.sources.items) node)) }
{
    let mut steps = ByLists { lists: &edges };
    let search = search_numbered(alloc, &mut steps, nodes, &border.sources)?;
    reached_among(alloc, &search, &border.others)
}
