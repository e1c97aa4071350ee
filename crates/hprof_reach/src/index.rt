//! An index of the referrers in a heap.

ghost use Rattle.std.specs.Prelude.{◌≡◌, [], IfOk, OnOk};
ghost use Rattle.hprof_heap.specs.HeapFacts.{facts_of, size_of};
ghost use Rattle.hprof_edges.specs.Edges.{AreReferrers};
ghost use Rattle.hprof_reach.specs.Index.{IsIndexOf};

use crate::heap_graph::graph_of;
use crate::nodes::nodes_of;
use hprof_edges::{Cursors, Edge, EdgeSet, LeftOut, known_edges, sort_edges};
use hprof_heap::Heap;
use hprof_layouts::{KnownLayouts, Wanted, known_layouts};
use hprof_numbers::{Numbered, Predecessors, predecessors_of};
use std::alloc::{AllocError, Global};

/// For each class and object of a heap its possible referrers, with the layouts of the classes.
#[derive(Drop)]
pub struct ReferrerIndex {
    pub(crate) sources: Predecessors,
    pub(crate) known: KnownLayouts,
}

impl ReferrerIndex {
    ghost use Rattle.hprof_edges.specs.Collecting.{is_edge_wanted};
    ghost use Rattle.hprof_edges.specs.EdgeSet.{SetOf, wanted_in};
    ghost use Rattle.hprof_reach.specs.Referring.{PutsReferrers};

    /// Puts the edges from 0, and from each possible referrer of an identifier, into a set. If memory runs out, the answer is `AllocError`
    /// and the set is unspecified.
    fn put_of_sources(
        &self,
        alloc: Global,
        heap: &Heap,
        id: u64,
        set: &mut EdgeSet,
    ) -> Result<(), AllocError>
        ensures put { OnOk result (IsIndexOf (size_of heap.now) (facts_of heap.now) self.now → SetOf set.old []
            → PutsReferrers (size_of heap.now) (facts_of heap.now) (SetOf set.new) id) }
        ensures keeps { OnOk result (is_edge_wanted (wanted_in set.new) ≡ is_edge_wanted (wanted_in set.old)) }
    {
        let none = LeftOut::none(alloc);
        let mut near = Cursors::start();
        let mut references = Vec::new(alloc);
        // A class dump of 0 has edges, and 0 is no node.
        known_edges(heap, &self.known, 0, &none, &mut near, &mut references, set)?;
        let first = self.sources.start(id);
        let end = self.sources.end(id);
        let mut last = 0;
        for place in first..end {
            let from = self.sources.node_at(place).unwrap_or(last);
            if from != last {
                known_edges(
                    heap,
                    &self.known,
                    from,
                    &none,
                    &mut near,
                    &mut references,
                    set,
                )?;
                last = from;
            }
        }
        Ok(())
    }

    /// Returns all edges to an identifier, in order, each once. There are none to 0.
    ///
    /// `heap` is the heap that was indexed. Only the possible referrers of the identifier are looked at. If memory runs out, the answer is
    /// `AllocError`.
    pub fn referrers(&self, alloc: Global, heap: &Heap, id: u64) -> Result<Vec<Edge>, AllocError>
        ensures { IfOk result (λ edges. IsIndexOf (size_of heap.now) (facts_of heap.now) self.now
            → AreReferrers (size_of heap.now) (facts_of heap.now) id edges.items) }
    {
        if id == 0 {
            return Ok(Vec::new(alloc));
        }
        let mut set = EdgeSet::new(alloc, Wanted::To(id));
        self.put_of_sources(alloc, heap, id, &mut set)?;
        let mut edges = set.edges;
        sort_edges(&mut edges);
        Ok(edges)
    }
}

/// Returns the index of a heap, in one pass over all edges. If memory runs out, the answer is `AllocError`.
pub fn index_referrers(alloc: Global, heap: &Heap) -> Result<ReferrerIndex, AllocError>
    ensures { IfOk result (IsIndexOf (size_of heap.now) (facts_of heap.now)) }
{
    let nodes = Numbered::new(alloc, nodes_of(alloc, heap)?)?;
    let none = LeftOut::none(alloc);
    let mut graph = graph_of(alloc, heap, &none)?;
    let sources = predecessors_of(alloc, &mut graph, nodes)?;
    let known = known_layouts(alloc, heap)?;
    Ok(ReferrerIndex { sources, known })
}
