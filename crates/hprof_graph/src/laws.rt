//! The laws of all answers, from the crates that prove them.

ghost use Rattle.std.specs.Borrow.{Bor};
ghost use Rattle.std.specs.Prelude.{◌≡◌, ℕ, Bool, true, List, Contains};
ghost use Rattle.hprof_values.specs.declared.ids.IdSize.{IdSize};
ghost use Rattle.hprof_items.specs.FactValue.{FactValue};
ghost use Rattle.hprof_rows.specs.Facts.{Has};
ghost use Rattle.hprof_edges.specs.declared.edge.Edge.{Edge};
ghost use Rattle.hprof_edges.specs.Edges.{AreEdges, AreReferrers};
ghost use Rattle.hprof_heap.specs.Gathering.{Given, Gathers, Tells, nothing_gathered};
ghost use Rattle.hprof_layouts.specs.declared.slot.Layout.{Layout};
ghost use Rattle.hprof_layouts.specs.Layout.{IsLayout, layout_value};
ghost use Rattle.hprof_graph.specs.declared.live_heap.LiveHeap.{LiveHeap};
ghost use Rattle.hprof_graph.specs.Derived.{CanBeLaid, CannotBeLaid};
ghost use Rattle.hprof_graph.specs.LiveHeap.{outcome_of, seen_by};
ghost use Rattle.hprof_graph.specs.Number.{IsNumberOf};
ghost use Rattle.hprof_graph.specs.OfParts.{AnswersOfParts};

pub use hprof_edges::laws::{
    dumps_give_edges, edges_in_order, more_facts_keep_edges, one_list_of_edges,
};
pub use hprof_histogram::laws::one_histogram;
pub use hprof_layouts::laws::{more_facts_keep_layouts, one_answer_of_fields, one_layout};
pub use hprof_reach::laws::{
    no_distance_no_walk, one_distance_and_path, path_is_shortest, some_distance_and_path,
};

/// More facts do not remove referrers of an identifier.
pub fn referrers_only_grow()
    ensures { (ids : IdSize) (facts more : List FactValue) (id : ℕ) (edges others : List Edge) (edge : Edge)
        → ((fact : FactValue) → Has facts fact → Has more fact) → AreReferrers ids facts id edges → AreReferrers ids more id others
        → Contains edges edge → Contains others edge }
{}

/// Each answer of a live heap is about all facts of the parts that it was given, with their common identifier size. It is `InConflict`
/// exactly if two of these facts have the same key and different contents, or the parts have two identifier sizes. It is never `Failed`,
/// since a live heap that took whole parts had no fault.
pub fn answers_are_of_parts()
    ensures told { (live : LiveHeap) (parts : List Given) → Gathers nothing_gathered parts (seen_by live)
        → Tells parts (outcome_of live) }
    ensures layout_now { (class : ℕ) → AnswersOfParts (λ ids facts (layout : Layout). IsLayout facts class (layout_value layout)) }
    ensures cuts { AnswersOfParts (λ ids facts number. IsNumberOf (CanBeLaid facts) number) }
    ensures unresolved { AnswersOfParts (λ ids facts number. IsNumberOf (CannotBeLaid facts) number) }
    ensures referrers_now { (id : ℕ) → AnswersOfParts (λ ids facts (edges : Bor (List Edge)). AreReferrers ids facts id edges.now) }
    // Of the edges that are kept.
    ensures kept { (id : ℕ) (keeps : Edge → Bool) → AnswersOfParts (λ ids facts (edges : Bor (List Edge)). AreEdges ids facts
        (λ edge. (edge.to ≡ id) × (keeps edge ≡ true)) edges.now) }
{}
