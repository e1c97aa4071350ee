//! Laws of the definitions. The contract of each function is a theorem; its body is empty.

ghost use Rattle.std.specs.Prelude.{◌≡◌, ◌↔◌, ◌⊎◌, ℕ, List, [], Option};
ghost use Rattle.std.specs.Cmp.Lexicographic.{slice_cmp};
ghost use Rattle.std.specs.Ordering.{nat_cmp};
ghost use Rattle.hprof_values.specs.declared.ids.IdSize.{IdSize};
ghost use Rattle.hprof_items.specs.FactValue.{FactValue};
ghost use Rattle.hprof_rows.specs.Facts.{Has};
ghost use Rattle.hprof_edges.specs.declared.edge.Edge.{Edge};
ghost use Rattle.hprof_edges.specs.DumpEdges.{GivenByClass, GivenByObject};
ghost use Rattle.hprof_edges.specs.EdgeOrder.{numbers_of_edge};
ghost use Rattle.hprof_edges.specs.Edges.{AreEdgesFrom, AreReferrers, IsEdge};
ghost use Rattle.hprof_edges.specs.LeastEdge.{IsLeastEdgeBy};
ghost use Rattle.hprof_edges.specs.LeftOut.{IsKept};

use crate::edge::Edge;

/// The edges of facts are those from class dumps and those from object dumps.
pub fn dumps_give_edges()
    ensures { (ids : IdSize) (facts : List FactValue) (edge : Edge)
        → IsEdge ids facts edge ↔ (GivenByClass facts edge ⊎ GivenByObject ids facts edge) }
{}

/// Edges are ordered by the referrer, then by the kind of the reference, then by its position, then by the identifier that is referred to.
pub fn edges_in_order()
    ensures { (edge other : Edge)
        → ⟦<Edge as Ord>⟧.cmp edge other ≡ slice_cmp nat_cmp (numbers_of_edge edge) (numbers_of_edge other) }
{}

/// An identifier has one list of edges from it, and one of edges to it.
pub fn one_list_of_edges()
    ensures from { (ids : IdSize) (facts : List FactValue) (id : ℕ) (one other : List Edge)
        → AreEdgesFrom ids facts id one → AreEdgesFrom ids facts id other → one ≡ other }
    ensures to { (ids : IdSize) (facts : List FactValue) (id : ℕ) (one other : List Edge)
        → AreReferrers ids facts id one → AreReferrers ids facts id other → one ≡ other }
{}

/// More facts do not remove edges.
pub fn more_facts_keep_edges()
    ensures { (ids : IdSize) (facts more : List FactValue) (edge : Edge)
        → ((fact : FactValue) → Has facts fact → Has more fact) → IsEdge ids facts edge → IsEdge ids more edge }
{}

/// Two choices of edges.
pub trait TwoChoices {
    ghost one: { Edge → Type 0 };

    ghost other: { Edge → Type 0 };
}

/// If no fields are left out, every edge is kept.
pub fn no_fields_keep_all()
    ensures { (facts : List FactValue) (edge : Edge) → IsKept [] facts edge }
{}

/// Two choices that agree on the edges of the facts have the same least edge between two identifiers.
pub fn same_edges_one_least<C: TwoChoices>()
    ensures { (ids : IdSize) (facts : List FactValue) → ((edge : Edge) → IsEdge ids facts edge → C.one edge ↔ C.other edge)
        → (from to : ℕ) (found : Option Edge) → IsLeastEdgeBy C.one ids facts from to found
        → IsLeastEdgeBy C.other ids facts from to found }
{}
