//! A path that a search tells, with its distance.

ghost use Rattle.std.specs.Prelude.{List, IfOk, IfSome};
ghost use Rattle.hprof_values.specs.declared.ids.IdSize.{IdSize};
ghost use Rattle.hprof_items.specs.FactValue.{FactValue};
ghost use Rattle.hprof_heap.specs.HeapFacts.{facts_of, size_of};
ghost use Rattle.hprof_edges.specs.declared.field_place.FieldPlace.{FieldPlace};
ghost use Rattle.hprof_edges.specs.Edges.{AnyEdge};
ghost use Rattle.hprof_edges.specs.LeftOut.{IsKept};
ghost use Rattle.hprof_reach.specs.Reaching.{IsReach, IsReachBy};
ghost use Rattle.hprof_why.specs.Paths.{IsPathTo};

use hprof_heap::Heap;
use hprof_reach::{KeptEdges, Reach, reach_of};
use std::alloc::{AllocError, Global};

/// A shortest path from a GC root to an identifier, and the number of its steps.
#[derive(Drop)]
pub(crate) struct Path {
    pub(crate) distance: u64,
    pub(crate) nodes: Vec<u64>,
}

/// Returns the path to an identifier by the edges that the search was made with, or `None` if they do not lead there. If memory runs out,
/// the answer is `AllocError`.
pub(crate) fn path_to(alloc: Global, reach: &Reach, id: u64) -> Result<Option<Path>, AllocError>
    ensures { IfOk result (λ path. (fields : List FieldPlace) (ids : IdSize) (facts : List FactValue)
        → IsReachBy (IsKept fields facts) ids facts reach.now → IsPathTo (IsKept fields facts) ids facts id path) }
{
    let Some(distance) = reach.distance_by::<KeptEdges>(id) else {
        return Ok(None);
    };
    let Some(nodes) = reach.path_by::<KeptEdges>(alloc, id)? else {
        return Ok(None);
    };
    Ok(Some(Path { distance, nodes }))
}

/// Returns the path to an identifier by all edges, as [`path_to`] does. `all` is the search by them; it is made, and kept there, if it is
/// not there yet.
pub(crate) fn path_by_all(
    alloc: Global,
    heap: &Heap,
    all: &mut Option<Reach>,
    id: u64,
) -> Result<Option<Path>, AllocError>
    requires { IfSome all.old (IsReach (size_of heap.now) (facts_of heap.now)) }
    ensures path { IfOk result (IsPathTo AnyEdge (size_of heap.now) (facts_of heap.now) id) }
    ensures all { IfSome all.new (IsReach (size_of heap.now) (facts_of heap.now)) }
{
    if let Some(reach) = all {
        return path_to(alloc, reach, id);
    }
    let reach = reach_of(alloc, heap)?;
    let path = path_to(alloc, &reach, id);
    *all = Some(reach);
    path
}
