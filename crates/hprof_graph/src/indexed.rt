//! An index of the references in a heap.

ghost use Rattle.std.specs.Prelude.{◌≡◌, Bool, true, List};
ghost use Rattle.hprof_values.specs.declared.ids.IdSize.{IdSize};
ghost use Rattle.hprof_items.specs.FactValue.{FactValue};
ghost use Rattle.hprof_edges.specs.declared.edge.Edge.{Edge};
ghost use Rattle.hprof_edges.specs.Edges.{AreEdges, AreReferrers};
ghost use Rattle.hprof_graph.specs.Indexed.{IsIndexOf, IsIndexTo};

use crate::by_target::edges_to;
use hprof_edges::Edge;

/// The collected edges of a heap, by the identifier that they refer to.
#[derive(Drop)]
pub struct Index {
    pub(crate) edges: Vec<Edge>,
}

impl Index {
    /// Returns the edges to an identifier, in order, each once. There are none to 0.
    ///
    /// If the index has only some edges, those of them are returned. Uses binary search, and allocates nothing.
    pub fn referrers(&self, id: u64) -> &[Edge]
        ensures value { (ids : IdSize) (facts : List FactValue) → IsIndexTo ids facts id self.now → AreReferrers ids facts id result.now }
        // Of an index that keeps some of the edges: those of them to the identifier.
        ensures kept { (ids : IdSize) (facts : List FactValue) (keeps : Edge → Bool) → IsIndexOf ids facts keeps self.now
            → AreEdges ids facts (λ edge. (edge.to ≡ id) × (keeps edge ≡ true)) result.now }
    {
        edges_to(&self.edges, id)
    }
}
