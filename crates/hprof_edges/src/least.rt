//! The least edge between two identifiers.

ghost use Rattle.std.specs.Prelude.{◌≡◌, ◌≢◌, ◌⊎◌, [], IfOk, IfSome, Some};
ghost use Rattle.std.specs.declared.cmp.Ordering.TheVariants.{Greater};
ghost use Rattle.hprof_heap.specs.HeapFacts.{facts_of, size_of};
ghost use Rattle.hprof_layouts.specs.Known.{Knows};
ghost use Rattle.hprof_edges.specs.LeastEdge.{IsLeastEdge, IsLeastEdgeBy};
ghost use Rattle.hprof_edges.specs.LeftOut.{IsKept, fields_in};

use crate::collect::Collect;
use crate::edge::Edge;
use crate::from_known::{Cursors, known_edges};
use crate::left_out::LeftOut;
use hprof_heap::Heap;
use hprof_layouts::{KnownLayouts, Reference, Wanted};
use std::alloc::AllocError;

/// A collector of the least edge to an identifier.
#[derive(Clone, Copy, Debug, PartialEq, Eq)]
pub(crate) struct LeastEdge {
    /// The identifier.
    pub(crate) to: u64,
    /// The least edge to it so far.
    pub(crate) edge: Option<Edge>,
}

/// Returns the lesser of an edge and the one so far.
fn first_of(kept: Option<Edge>, edge: Edge) -> Edge
    ensures one { (result ≡ edge) ⊎ (kept ≡ Some result) }
    ensures edge { ⟦<Edge as Ord>⟧.cmp result edge ≢ Greater }
    ensures kept { IfSome kept (λ other. ⟦<Edge as Ord>⟧.cmp result other ≢ Greater) }
{
    match kept {
        Some(kept) if kept <= edge => kept,
        _ => edge,
    }
}

/// Collects one edge.
impl Collect for LeastEdge {
    ghost use Rattle.hprof_edges.specs.KeptLeast.{least_alike};
    ghost use Rattle.hprof_edges.specs.LeastEdge.{KeepsLeast, leads_to};

    ghost holds = { KeepsLeast };

    ghost keeps = { leads_to };

    ghost same_kept = { least_alike };

    #[inline(always)]
    fn wanted(&self) -> Wanted {
        Wanted::To(self.to)
    }

    #[inline(always)]
    fn put(&mut self, edge: Edge) -> Result<(), AllocError> {
        if edge.to == self.to {
            self.edge = Some(first_of(self.edge, edge));
        }
        Ok(())
    }
}

/// Returns the least edge from one identifier to another, ordered by the kind of the reference and then by its position, or `None` if there
/// is none. Edges by the fields in `left_out` do not count. `known` has the layouts of the heap's classes.
///
/// The class dump and the object dump of the first identifier are looked up, near the places of the last ones. `references` is scratch
/// space. If memory runs out, the answer is `AllocError`.
pub fn least_edge(
    heap: &Heap,
    known: &KnownLayouts,
    from: u64,
    to: u64,
    left_out: &LeftOut,
    near: &mut Cursors,
    references: &mut Vec<Reference>,
) -> Result<Option<Edge>, AllocError>
    ensures kept { Knows (size_of heap.now) (facts_of heap.now) known.now
        → IfOk result (IsLeastEdgeBy (IsKept (fields_in left_out.now) (facts_of heap.now)) (size_of heap.now) (facts_of heap.now) from to) }
    ensures all { Knows (size_of heap.now) (facts_of heap.now) known.now → fields_in left_out.now ≡ []
        → IfOk result (IsLeastEdge (size_of heap.now) (facts_of heap.now) from to) }
{
    let mut least = LeastEdge { to, edge: None };
    known_edges(heap, known, from, left_out, near, references, &mut least)?;
    Ok(least.edge)
}
