//! Edges in words.

ghost use Rattle.std.specs.Prelude.{◌≡◌, ◌↔◌, ℕ, IfOk, IsTrue, OnOk, string_bytes};
ghost use Rattle.std.specs.List.Sorted.{IsNonDecreasingBy};
ghost use Rattle.hprof_heap.specs.HeapFacts.{facts_of, size_of};
ghost use Rattle.hprof_edges.specs.declared.field_place.FieldPlace.{FieldPlace};
ghost use Rattle.hprof_edges.specs.Edges.{IsEdge};
ghost use Rattle.hprof_edges.specs.LeftOut.{IsLeftOut, fields_in, has_place};
ghost use Rattle.hprof_naming.specs.Naming.{IsNaming, Naming};
ghost use Rattle.hprof_reports.specs.Skipped.{AreSkips};
ghost use Rattle.hprof_holders.specs.Steps.{AreEdgeFindings, EdgeFindings, step_kind, step_text, weak_word};
ghost use Rattle.hprof_holders.specs.Views.{IsView};

use crate::view::HeapView;
use hprof_edges::{Edge, FieldPlace, LeftOut, Via};
use hprof_heap::{Heap, ObjectDump, find_object, holds_of_heap};
use hprof_naming::name_text;
use hprof_reports::{FieldNames, place_name, via_word};
use std::alloc::{AllocError, Global};

/// An edge with the name of its place, and whether it is weak.
#[derive(Clone, Copy, Debug, PartialEq, Eq)]
pub struct Step {
    /// The edge.
    pub edge: Edge,
    /// The identifier of the name of a static field or a field; `None` for another kind of reference.
    pub name: Option<u64>,
    /// Whether it is weak.
    pub is_weak: bool,
}

/// Returns whether one of the fields stands at that place, by binary search. All are fields of one class, and ascend by place.
fn has_place(fields: &[FieldPlace], place: u64) -> bool
    requires { IsNonDecreasingBy (λ (field : FieldPlace). field.place) fields.now }
    ensures { result ≡ has_place fields.now place }
{
    fields
        .binary_search_by_key(&place, |field| field.place)
        .is_ok()
}

/// Returns whether an edge is by a field in the table.
fn is_left_out(heap: &Heap, left_out: &LeftOut, edge: Edge) -> bool
    ensures { IsTrue result ↔ IsLeftOut (fields_in left_out.now) (facts_of heap.now) edge }
{
    if edge.via != Via::Field {
        return false;
    }
    match find_object(heap, edge.from) {
        Some(ObjectDump::Instance { class, .. }) => has_place(left_out.of(class), edge.position),
        _ => false,
    }
}

/// Returns an edge with the name of its place, and whether it is weak. `names` remembers classes of the heap that were passed over. If
/// memory runs out, the answer is `AllocError`.
pub fn step_of(view: HeapView<'_>, edge: Edge, names: &mut FieldNames) -> Result<Step, AllocError>
    requires { IsView view }
    ensures edge { IfOk result (λ step. step.edge ≡ edge) }
    ensures found { IfOk result (λ step. (edges : EdgeFindings) → AreSkips (facts_of view.entry.heap.now) names.old
        → AreEdgeFindings (size_of view.entry.heap.now) (facts_of view.entry.heap.now) edges
        → IsEdge (size_of view.entry.heap.now) (facts_of view.entry.heap.now) edge
        → (step.name ≡ edges.name edge) × (step.is_weak ≡ edges.is_weak edge)) }
    ensures skips { OnOk result (AreSkips (facts_of view.entry.heap.now) names.old → AreSkips (facts_of view.entry.heap.now) names.new) }
{
    holds_of_heap(view.heap);
    let name = place_name(view.heap, edge, names)?;
    Ok(Step {
        edge,
        name,
        is_weak: is_left_out(view.heap, view.weak, edge),
    })
}

/// Returns the word before a weak edge, or an empty text.
fn weak_word(is_weak: bool) -> &'static str
    ensures { result.now ≡ weak_word is_weak }
{
    if is_weak { "weak " } else { "" }
}

/// Returns a step in words, with its place.
pub fn step_text(alloc: Global, heap: &Heap, step: Step) -> Result<String, AllocError>
    ensures { (naming : Naming) (edges : EdgeFindings) → IsNaming (facts_of heap.now) naming → step.name ≡ edges.name step.edge
        → step.is_weak ≡ edges.is_weak step.edge → IfOk result (λ text. string_bytes text ≡ step_text naming edges step.edge) }
{
    let weak = weak_word(step.is_weak);
    let word = via_word(step.edge.via);
    let place = step.edge.position;
    match step.name {
        Some(name) => {
            let name = name_text(alloc, heap, name)?;
            format!(in alloc; "{weak}{word} {place} {name}")
        }
        None => format!(in alloc; "{weak}{word} {place}"),
    }
}

/// Returns a step in words, without its place.
pub fn step_kind(alloc: Global, heap: &Heap, step: Step) -> Result<String, AllocError>
    ensures { (naming : Naming) (edges : EdgeFindings) → IsNaming (facts_of heap.now) naming → step.name ≡ edges.name step.edge
        → step.is_weak ≡ edges.is_weak step.edge → IfOk result (λ text. string_bytes text ≡ step_kind naming edges step.edge) }
{
    let weak = weak_word(step.is_weak);
    let word = via_word(step.edge.via);
    match step.name {
        Some(name) => {
            let name = name_text(alloc, heap, name)?;
            format!(in alloc; "{weak}{word} {name}")
        }
        None => format!(in alloc; "{weak}{word}"),
    }
}
