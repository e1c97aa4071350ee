//! The name of the part by which an edge refers.

ghost use Rattle.std.specs.Prelude.{◌≡◌, ℕ, Some, IfNone, IfOk, IfSome, OnOk};
ghost use Rattle.hprof_heap.specs.HeapFacts.{facts_of, size_of};
ghost use Rattle.hprof_edges.specs.Edges.{IsEdge};
ghost use Rattle.hprof_reports.specs.PlaceNames.{IsFieldNamed, IsPlaceName, IsStaticNamed};
ghost use Rattle.hprof_reports.specs.Skipped.{AreSkips};

use crate::field_names::FieldNames;
use hprof_edges::{Edge, Via};
use hprof_heap::{Heap, ObjectDump, find_class, find_object};
use std::alloc::AllocError;

/// Returns the name of the static field at a place of a class, if it has one there.
fn static_name(heap: &Heap, class: u64, place: u64) -> Option<u64>
    ensures some { IfSome result (IsStaticNamed (facts_of heap.now) class place) }
    ensures none { IfNone result ((name : ℕ) → IsStaticNamed (facts_of heap.now) class place name → ⊥) }
{
    let dump = find_class(heap, class)?;
    let field = dump.statics.get(place as usize)?;
    Some(field.name)
}

/// Returns the name of the field at a place of an instance, if it is one whose layout has the place.
fn field_name(
    heap: &Heap,
    object: u64,
    place: u64,
    names: &mut FieldNames,
) -> Result<Option<u64>, AllocError>
    ensures name { IfOk result (λ name. AreSkips (facts_of heap.now) names.old → (named : ℕ)
        → IsFieldNamed (facts_of heap.now) object place named → name ≡ Some named) }
    ensures skips { OnOk result (AreSkips (facts_of heap.now) names.old → AreSkips (facts_of heap.now) names.new) }
{
    match find_object(heap, object) {
        Some(ObjectDump::Instance { class, .. }) => names.name_at(heap, class, place),
        _ => Ok(None),
    }
}

/// Returns the name of the static field or of the field by which an edge refers, or `None` for another kind of reference.
///
/// `names` remembers classes of the heap that were passed over. If memory runs out, the answer is `AllocError`.
pub fn place_name(
    heap: &Heap,
    edge: Edge,
    names: &mut FieldNames,
) -> Result<Option<u64>, AllocError>
    ensures name { IfOk result (λ name. AreSkips (facts_of heap.now) names.old → IsEdge (size_of heap.now) (facts_of heap.now) edge
        → IsPlaceName (facts_of heap.now) edge.from edge.via edge.position name) }
    ensures skips { OnOk result (AreSkips (facts_of heap.now) names.old → AreSkips (facts_of heap.now) names.new) }
{
    match edge.via {
        Via::Static => Ok(static_name(heap, edge.from, edge.position)),
        Via::Field => field_name(heap, edge.from, edge.position, names),
        _ => Ok(None),
    }
}
