//! Distances and paths from GC roots.

ghost use Rattle.std.specs.Prelude.{◌↔◌, ℕ, List, IfOk, IsTrue, Some};
ghost use Rattle.std.specs.Option.{option_map};
ghost use Rattle.hprof_values.specs.declared.ids.IdSize.{IdSize};
ghost use Rattle.hprof_items.specs.FactValue.{FactValue};
ghost use Rattle.hprof_heap.specs.HeapFacts.{facts_of, size_of};
ghost use Rattle.hprof_edges.specs.LeftOut.{IsKept, fields_in};
ghost use Rattle.hprof_reach.specs.Reaching.{IsDistanceBy, IsDistanceFromRoots, IsPathBy, IsPathFromRoots, IsReach, IsReachBy};

use crate::chosen_edges::{AllEdges, ChosenEdges};
use crate::from_roots::FromRoots;
use crate::heap_graph::graph_of;
use crate::nodes::nodes_of;
use crate::starts::starts_of;
use hprof_edges::LeftOut;
use hprof_heap::Heap;
use hprof_search::{Search, search};
use std::alloc::{AllocError, Global};

/// The distances of the classes and objects of a heap from its GC roots, and the paths to them.
#[derive(Drop)]
pub struct Reach {
    pub(crate) search: Search,
}

impl Reach {
    /// Returns the least number of references from a GC root to an identifier, or `None` if no root leads to it or it has no dump.
    /// Allocates nothing.
    pub fn distance(&self, id: u64) -> Option<u64>
        ensures { (ids : IdSize) (facts : List FactValue) → IsReach ids facts self.now → IsDistanceFromRoots ids facts id result }
    {
        self.distance_by::<AllEdges>(id)
    }

    /// Returns a shortest path from a GC root to an identifier, or `None` if no root leads to it.
    ///
    /// Of several shortest paths it is the one that has, from its end back, the least identifier each time. If memory runs out, the answer
    /// is `AllocError`.
    pub fn path(&self, alloc: Global, id: u64) -> Result<Option<Vec<u64>>, AllocError>
        ensures { IfOk result (λ path. (ids : IdSize) (facts : List FactValue) → IsReach ids facts self.now
            → IsPathFromRoots ids facts id (option_map (λ nodes. nodes.items) path)) }
    {
        self.path_by::<AllEdges>(alloc, id)
    }

    /// Returns whether a GC root leads to an identifier. Allocates nothing, and does not go along the path.
    pub fn is_reached(&self, id: u64) -> bool
        ensures { (ids : IdSize) (facts : List FactValue) → IsReach ids facts self.now
            → IsTrue result ↔ ((references : ℕ) × IsDistanceFromRoots ids facts id (Some references)) }
    {
        self.is_reached_by::<AllEdges>(id)
    }

    /// Returns whether a GC root leads to an identifier, as [`Reach::is_reached`] does, by the edges that the search was made with.
    pub fn is_reached_by<E: ChosenEdges>(&self, id: u64) -> bool
        ensures { (told : E.Told) (ids : IdSize) (facts : List FactValue) → IsReachBy (E.chosen told ids facts) ids facts self.now
            → IsTrue result ↔ ((references : ℕ) × IsDistanceBy (E.chosen told ids facts) ids facts id (Some references)) }
    {
        self.search.is_found::<FromRoots<E>>(id)
    }

    /// Returns the distance of an identifier, as [`Reach::distance`] does, by the edges that the search was made with.
    pub fn distance_by<E: ChosenEdges>(&self, id: u64) -> Option<u64>
        ensures { (told : E.Told) (ids : IdSize) (facts : List FactValue) → IsReachBy (E.chosen told ids facts) ids facts self.now
            → IsDistanceBy (E.chosen told ids facts) ids facts id result }
    {
        self.search.distance::<FromRoots<E>>(id)
    }

    /// Returns a shortest path to an identifier, as [`Reach::path`] does, by the edges that the search was made with.
    pub fn path_by<E: ChosenEdges>(
        &self,
        alloc: Global,
        id: u64,
    ) -> Result<Option<Vec<u64>>, AllocError>
        ensures { IfOk result (λ path. (told : E.Told) (ids : IdSize) (facts : List FactValue)
            → IsReachBy (E.chosen told ids facts) ids facts self.now
            → IsPathBy (E.chosen told ids facts) ids facts id (option_map (λ nodes. nodes.items) path)) }
    {
        self.search.path::<FromRoots<E>>(alloc, id)
    }
}

/// Searches a heap from its GC roots, breadth first. Each reference is looked at once. If memory runs out, the answer is `AllocError`.
pub fn reach_of(alloc: Global, heap: &Heap) -> Result<Reach, AllocError>
    ensures { IfOk result (IsReach (size_of heap.now) (facts_of heap.now)) }
{
    let reach = reach_without(alloc, heap, &LeftOut::none(alloc))?;
    Ok(reach)
}

/// Searches a heap from its GC roots, as [`reach_of`] does, without the edges by the fields in `left_out`.
pub fn reach_without(alloc: Global, heap: &Heap, left_out: &LeftOut) -> Result<Reach, AllocError>
    ensures { IfOk result (IsReachBy (IsKept (fields_in left_out.now) (facts_of heap.now)) (size_of heap.now) (facts_of heap.now)) }
{
    let graph = graph_of(alloc, heap, left_out)?;
    let nodes = nodes_of(alloc, heap)?;
    let starts = starts_of(alloc, heap)?;
    let search = search(alloc, graph, nodes, &starts)?;
    Ok(Reach { search })
}
