//! Choices of edges.

ghost use Rattle.std.specs.Prelude.{⊤, List};
ghost use Rattle.hprof_values.specs.declared.ids.IdSize.{IdSize};
ghost use Rattle.hprof_items.specs.FactValue.{FactValue};
ghost use Rattle.hprof_edges.specs.declared.edge.Edge.{Edge};
ghost use Rattle.hprof_edges.specs.declared.field_place.FieldPlace.{FieldPlace};
ghost use Rattle.hprof_edges.specs.Edges.{AnyEdge};
ghost use Rattle.hprof_edges.specs.LeftOut.{IsKept};

/// A choice among the edges of a heap. A caller that asks a search for a distance or a path names the choice that the search was made with.
pub trait ChosenEdges {
    // what tells it, beside facts
    ghost Told: { Type 0 };

    // the edge is chosen, where these are the facts
    ghost chosen: { Told → IdSize → List FactValue → Edge → Type 0 };
}

/// All edges.
pub struct AllEdges;

impl ChosenEdges for AllEdges {
    ghost Told = { ⊤ };

    ghost chosen = { λ told ids facts. AnyEdge };
}

/// The edges that are by none of the fields of a table.
pub struct KeptEdges;

impl ChosenEdges for KeptEdges {
    ghost Told = { List FieldPlace };

    ghost chosen = { λ fields ids facts. IsKept fields facts };
}
