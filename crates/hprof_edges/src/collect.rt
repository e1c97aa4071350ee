//! Collectors of edges.

ghost use Rattle.std.specs.Prelude.{◌≡◌, ◌++◌, ◌∷◌, [], List, Bool, true, false, filter, OnOk};
ghost use Rattle.hprof_layouts.specs.References.{is_wanted};

use crate::edge::Edge;
use hprof_layouts::Wanted;
use std::alloc::AllocError;

/// A type that collects edges.
pub trait Collect {
    ghost use Rattle.hprof_edges.specs.declared.edge.Edge.{Edge};

    // It was given these edges, in this order, one behind the other.
    ghost holds: { Self → List Edge → Type 0 };

    // Which edges it keeps of those that it is given. That stays.
    ghost keeps: { Self → Edge → Bool } = { λ collects edge. true };

    // What it was given is told by the edges alone that it keeps.
    ghost same_kept: { (collects : Self) (one other : List Edge) → filter (keeps collects) one ≡ filter (keeps collects) other
        → holds collects one → holds collects other };

    /// Returns the identifiers whose referrers it collects. It ignores other edges.
    fn wanted(&self) -> Wanted
        ensures { (edge : Edge) → is_wanted result edge.to ≡ false → keeps self.now edge ≡ false };

    /// Takes an edge. If memory runs out, the answer is `AllocError` and the collector is unspecified.
    fn put(&mut self, edge: Edge) -> Result<(), AllocError>
        ensures holds { OnOk result ((edges : List Edge) → holds self.old edges → holds self.new (edges ++ edge ∷ [])) }
        ensures keeps { OnOk result (keeps self.new ≡ keeps self.old) };
}
