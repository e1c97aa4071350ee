//! The edges of an object.

ghost use Rattle.std.specs.Prelude.{◌≡◌, ◌↔◌, ◌⊎◌, false, List, IsTrue, IfOk, OnOk};
ghost use Rattle.hprof_values.specs.declared.ids.IdSize.{IdSize};
ghost use Rattle.hprof_items.specs.FactValue.{FactValue};
ghost use Rattle.hprof_values.specs.Lists.{identifiers_of};
ghost use Rattle.hprof_heap.specs.ObjectDump.{fact_of_object};
ghost use Rattle.hprof_layouts.specs.Known.{HasLayout, Knows};
ghost use Rattle.hprof_edges.specs.declared.edge.Edge.{Edge};
ghost use Rattle.hprof_edges.specs.Collecting.{PutBehind};
ghost use Rattle.hprof_edges.specs.DumpEdges.{IsEdgeToClass, IsElementEdge, IsFieldEdge, IsObjectEdge};

use crate::collect::Collect;
use crate::edge::{Edge, Via};
use crate::putting::{put_edge, put_elements, put_references};
use hprof_heap::ObjectDump;
use hprof_layouts::{KnownLayouts, Reference};
use hprof_values::{IdList, IdSize};
use std::alloc::AllocError;

/// Puts the edge of an instance or an object array to its class, if it is wanted. An object of class 0 has none.
#[inline(always)]
pub fn edge_to_class<C: Collect>(object: u64, class: u64, into: &mut C) -> Result<(), AllocError>
    ensures holds { OnOk result ((edges : List Edge) → C.holds into.old edges
        → PutBehind (C.holds into.new) edges (IsEdgeToClass object class)) }
    ensures keeps { OnOk result (C.keeps into.new ≡ C.keeps into.old) }
{
    if !into.wanted().wants(class) {
        return Ok(());
    }
    let edge = Edge {
        from: object,
        via: Via::Class,
        position: 0,
        to: class,
    };
    put_edge(edge, into)?;
    Ok(())
}

/// Puts the wanted edges from the fields of an instance, and returns whether the layout of its class is known.
///
/// Nothing is put if the layout is not known, or has another number of bytes than the instance. `references` is scratch space.
#[inline(always)]
pub fn field_edges<C: Collect>(
    known: &KnownLayouts,
    instance: u64,
    class: u64,
    bytes: &[u8],
    ids: IdSize,
    references: &mut Vec<Reference>,
    into: &mut C,
) -> Result<bool, AllocError>
    ensures holds { OnOk result ((facts : List FactValue) (edges : List Edge) → Knows ids facts known.now → C.holds into.old edges
        → PutBehind (C.holds into.new) edges (IsFieldEdge ids facts instance class bytes.now)) }
    ensures known { IfOk result (λ laid. (sizes : IdSize) (facts : List FactValue) → Knows sizes facts known.now
        → IsTrue laid ↔ HasLayout facts class) }
    ensures unlaid { IfOk result (λ laid. laid ≡ false → into.new ≡ into.old) }
    ensures keeps { OnOk result (C.keeps into.new ≡ C.keeps into.old) }
{
    if !known.set_references(class, bytes, ids, into.wanted(), references)? {
        return Ok(false);
    }
    put_references(instance, references, into)?;
    Ok(true)
}

/// Puts the edges of an object array into `into`: to its class, and from its elements. If memory runs out, the answer is `AllocError` and
/// `into` is unspecified.
pub fn array_edges<C: Collect>(
    array: u64,
    class: u64,
    elements: IdList<'_>,
    into: &mut C,
) -> Result<(), AllocError>
    ensures holds { OnOk result ((edges : List Edge) → C.holds into.old edges
        → PutBehind (C.holds into.new) edges (λ edge. IsEdgeToClass array class edge
        ⊎ IsElementEdge array (identifiers_of elements.entry) edge)) }
    ensures keeps { OnOk result (C.keeps into.new ≡ C.keeps into.old) }
{
    edge_to_class(array, class, into)?;
    put_elements(array, elements, into)?;
    Ok(())
}

/// Puts the edges of an object dump into `into`: to its class, from the fields of an instance if the layout of its class is known, and from
/// the elements of an object array.
///
/// `references` is scratch space. If memory runs out, the answer is `AllocError` and `into` is unspecified.
pub fn object_edges<C: Collect>(
    known: &KnownLayouts,
    dump: &ObjectDump<'_>,
    ids: IdSize,
    references: &mut Vec<Reference>,
    into: &mut C,
) -> Result<(), AllocError>
    ensures holds { OnOk result ((facts : List FactValue) (edges : List Edge) → Knows ids facts known.now → C.holds into.old edges
        → PutBehind (C.holds into.new) edges (IsObjectEdge ids facts (fact_of_object dump.now))) }
    ensures keeps { OnOk result (C.keeps into.new ≡ C.keeps into.old) }
{
    match *dump {
        ObjectDump::Instance {
            id,
            class,
            bytes,
            ..
        } => {
            edge_to_class(id, class, into)?;
            field_edges(known, id, class, bytes, ids, references, into)?;
            Ok(())
        }
        ObjectDump::ObjArray {
            id,
            class,
            elements,
            ..
        } => {
            array_edges(id, class, elements, into)?;
            Ok(())
        }
        // What is in an array of numbers refers to nothing.
        ObjectDump::PrimArray { .. } => Ok(()),
    }
}
