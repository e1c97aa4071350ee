//! A breadth-first search.

ghost use Rattle.std.specs.Prelude.{IfOk, Contains};
ghost use Rattle.std.specs.List.Sorted.{IsStrictlyIncreasing};
ghost use Rattle.hprof_numbers.specs.Numbered.{nodes_in};
ghost use Rattle.hprof_search.specs.Search.{IsSearch};

use crate::by_identifiers::ByIdentifiers;
use crate::following::begin;
use crate::kept_search::Search;
use crate::leading::lead_on;
use crate::steps::Steps;
use crate::trail::Trail;
use hprof_numbers::{Graph, Numbered};
use std::alloc::{AllocError, Global};

/// Searches a graph level by level, from those starts that are nodes, along the edges that lead to nodes.
///
/// `nodes` is sorted. Edges to identifiers that are no nodes are ignored, and each edge is looked at once.
///
/// The answer is `AllocError` if memory runs out, or if there are more than 2^32 nodes.
pub fn search<G: Graph + Drop>(
    alloc: Global,
    graph: G,
    nodes: Vec<u64>,
    starts: &[u64],
) -> Result<Search, AllocError>
    requires ascend { IsStrictlyIncreasing nodes.items }
    requires stands { G.stands graph }
    ensures { IfOk result (IsSearch (λ node. Contains nodes.items node × Contains starts.now node)
        (λ from to. G.leads graph from to × Contains nodes.items to)) }
{
    let numbered = Numbered::new(alloc, nodes)?;
    search_numbered(
        alloc,
        &mut ByIdentifiers::new(alloc, graph),
        numbered,
        starts,
    )
}

/// Searches a graph as [`search`] does, whose nodes have numbers.
pub fn search_numbered<S: Steps>(
    alloc: Global,
    steps: &mut S,
    numbered: Numbered,
    starts: &[u64],
) -> Result<Search, AllocError>
    requires stands { S.stands steps.old (nodes_in numbered) }
    ensures { IfOk result (IsSearch (λ node. Contains (nodes_in numbered) node × Contains starts.now node)
        (λ from to. S.leads steps.old (nodes_in numbered) from to × Contains (nodes_in numbered) to)) }
{
    let mut trail = Trail::new(alloc, numbered.len())?;
    let mut numbers = Vec::new(alloc);
    let mut level = Vec::new(alloc);
    begin(&numbered, starts, &mut trail)?;
    trail.take_next(&mut level)?;
    let mut levels = 0;
    while !level.is_empty() {
        lead_on(steps, &numbered, &level, &mut numbers, &mut trail)?;
        trail.take_next(&mut level)?;
        levels += 1;
    }
    Ok(Search {
        nodes: numbered.into_nodes(),
        found: trail.found,
        before: trail.before,
        order: trail.order,
        levels,
    })
}
