//! The edges of an object without those by left-out fields.

ghost use Rattle.std.specs.Prelude.{◌≡◌, false, not, List, filter, OnOk};
ghost use Rattle.std.specs.List.Sorted.{IsNonDecreasingBy};
ghost use Rattle.hprof_values.specs.declared.ids.IdSize.{IdSize};
ghost use Rattle.hprof_items.specs.FactValue.{FactValue};
ghost use Rattle.hprof_heap.specs.ObjectDump.{fact_of_object};
ghost use Rattle.hprof_layouts.specs.Known.{Knows};
ghost use Rattle.hprof_edges.specs.declared.edge.Edge.{Edge};
ghost use Rattle.hprof_edges.specs.declared.field_place.FieldPlace.{FieldPlace};
ghost use Rattle.hprof_edges.specs.Collecting.{PutBehind};
ghost use Rattle.hprof_edges.specs.DumpEdges.{IsFieldEdge, IsObjectEdge};
ghost use Rattle.hprof_edges.specs.LeftOut.{IsLeftOutOf, fields_in, has_place};

use crate::collect::Collect;
use crate::field_place::FieldPlace;
use crate::left_out::LeftOut;
use crate::of_object::{edge_to_class, field_edges, object_edges};
use crate::putting::put_references;
use hprof_heap::ObjectDump;
use hprof_layouts::{KnownLayouts, Reference};
use hprof_values::IdSize;
use std::alloc::AllocError;

/// Returns whether one of the fields stands at that place, by binary search. All are fields of one class, and ascend by place.
fn has_place(fields: &[FieldPlace], place: u64) -> bool
    requires { IsNonDecreasingBy (λ (field : FieldPlace). field.place) fields.now }
    ensures { result ≡ has_place fields.now place }
{
    fields
        .binary_search_by_key(&place, |field| field.place)
        .is_ok()
}

/// Removes the references of these fields, which ascend by place.
fn leave_out(references: &mut Vec<Reference>, fields: &[FieldPlace])
    requires { IsNonDecreasingBy (λ (field : FieldPlace). field.place) fields.now }
    ensures { references.new.items ≡ filter (λ reference. not (has_place fields.now reference.place)) references.old.items }
{
    references.retain(|reference| !has_place(fields, reference.place));
}

/// Puts the wanted edges from the fields of an instance without these fields of its class, which ascend by place. `references` is scratch
/// space.
fn kept_field_edges<C: Collect>(
    known: &KnownLayouts,
    instance: u64,
    class: u64,
    bytes: &[u8],
    ids: IdSize,
    fields: &[FieldPlace],
    references: &mut Vec<Reference>,
    into: &mut C,
) -> Result<(), AllocError>
    requires { IsNonDecreasingBy (λ (field : FieldPlace). field.place) fields.now }
    ensures holds { OnOk result ((facts : List FactValue) (edges : List Edge) → Knows ids facts known.now → C.holds into.old edges
        → PutBehind (C.holds into.new) edges
        (λ edge. IsFieldEdge ids facts instance class bytes.now edge × (has_place fields.now edge.position ≡ false))) }
    ensures keeps { OnOk result (C.keeps into.new ≡ C.keeps into.old) }
{
    known.set_references(class, bytes, ids, into.wanted(), references)?;
    leave_out(references, fields);
    put_references(instance, references, into)?;
    Ok(())
}

/// Puts the edges of an object dump into `into`, as [`object_edges`] does, without those by the fields in `left_out`.
///
/// `references` is scratch space. If memory runs out, the answer is `AllocError` and `into` is unspecified.
pub fn kept_object_edges<C: Collect>(
    known: &KnownLayouts,
    dump: &ObjectDump<'_>,
    ids: IdSize,
    left_out: &LeftOut,
    references: &mut Vec<Reference>,
    into: &mut C,
) -> Result<(), AllocError>
    ensures holds { OnOk result ((facts : List FactValue) (edges : List Edge) → Knows ids facts known.now → C.holds into.old edges
        → PutBehind (C.holds into.new) edges (λ edge. IsObjectEdge ids facts (fact_of_object dump.now) edge
        × ¬ IsLeftOutOf (fields_in left_out.now) (fact_of_object dump.now) edge)) }
    ensures keeps { OnOk result (C.keeps into.new ≡ C.keeps into.old) }
{
    let ObjectDump::Instance {
        id,
        class,
        bytes,
        ..
    } = *dump
    else {
        object_edges(known, dump, ids, references, into)?;
        return Ok(());
    };
    edge_to_class(id, class, into)?;
    let fields = left_out.of(class);
    if fields.is_empty() {
        field_edges(known, id, class, bytes, ids, references, into)?;
        return Ok(());
    }
    kept_field_edges(known, id, class, bytes, ids, fields, references, into)?;
    Ok(())
}
