//! Putting edges into a collector.

ghost use Rattle.std.specs.Prelude.{◌≡◌, ◌++◌, ℕ, List, Contains, false, OnOk};
ghost use Rattle.hprof_layouts.specs.References.{is_wanted};
ghost use Rattle.hprof_values.specs.Lists.{entries_of, identifiers_of};
ghost use Rattle.hprof_edges.specs.declared.edge.Edge.{Edge};
ghost use Rattle.hprof_edges.specs.declared.edge.Via.TheVariants as vias;
ghost use Rattle.hprof_edges.specs.EdgeLists.{numbered, reference_edges, target_of, targets_of_constants, targets_of_statics};
ghost use Rattle.hprof_edges.specs.EdgeLists.{targets_of_values, unless_zero};

use crate::collect::Collect;
use crate::edge::{Edge, Via};
use hprof_layouts::{FieldValue, Reference, Wanted, refers};
use hprof_values::{Basic, ConstantList, IdList, StaticList};
use std::alloc::AllocError;

/// Puts an edge, unless it refers to 0.
#[inline(always)]
pub(crate) fn put_edge<C: Collect>(edge: Edge, into: &mut C) -> Result<(), AllocError>
    ensures holds { OnOk result ((edges : List Edge) → C.holds into.old edges → C.holds into.new (edges ++ unless_zero edge)) }
    ensures keeps { OnOk result (C.keeps into.new ≡ C.keeps into.old) }
{
    if edge.to == 0 {
        return Ok(());
    }
    into.put(edge)?;
    Ok(())
}

/// Returns the identifier that a value of the type with these bits refers to, or 0 if it is no reference.
fn target_of(basic: Basic, bits: u64) -> u64
    ensures { result ≡ target_of basic bits }
{
    if refers(basic) { bits } else { 0 }
}

/// Puts the edges from a class's constants.
pub(crate) fn put_constants<C: Collect>(
    class: u64,
    constants: ConstantList<'_>,
    into: &mut C,
) -> Result<(), AllocError>
    ensures holds { OnOk result ((edges : List Edge) → C.holds into.old edges
        → C.holds into.new (edges ++ numbered class vias.Constant 0 (targets_of_constants (entries_of constants.entry)))) }
    ensures keeps { OnOk result (C.keeps into.new ≡ C.keeps into.old) }
{
    let mut position = 0;
    for constant in constants.iter() {
        let edge = Edge {
            from: class,
            via: Via::Constant,
            position,
            to: target_of(constant.value.basic, constant.value.bits),
        };
        put_edge(edge, into)?;
        position += 1;
    }
    Ok(())
}

/// Puts the edges from a class's static fields.
pub(crate) fn put_statics<C: Collect>(
    class: u64,
    statics: StaticList<'_>,
    into: &mut C,
) -> Result<(), AllocError>
    ensures holds { OnOk result ((edges : List Edge) → C.holds into.old edges
        → C.holds into.new (edges ++ numbered class vias.Static 0 (targets_of_statics (entries_of statics.entry)))) }
    ensures keeps { OnOk result (C.keeps into.new ≡ C.keeps into.old) }
{
    let mut position = 0;
    for field in statics.iter() {
        let edge = Edge {
            from: class,
            via: Via::Static,
            position,
            to: target_of(field.value.basic, field.value.bits),
        };
        put_edge(edge, into)?;
        position += 1;
    }
    Ok(())
}

/// Returns whether an identifier of the list is wanted. All are compared, without an early exit.
#[inline(always)]
fn wants_one(wanted: Wanted, elements: IdList<'_>) -> bool
    ensures { result ≡ false → (to : ℕ) → Contains (identifiers_of elements.entry) to → is_wanted wanted to ≡ false }
{
    match wanted {
        Wanted::All => true,
        Wanted::To(id) => elements.contains(id),
    }
}

/// Puts the wanted edges from the elements of an object array, one by one.
fn put_wanted<C: Collect>(array: u64, elements: IdList<'_>, into: &mut C) -> Result<(), AllocError>
    ensures holds { OnOk result ((edges : List Edge) → C.holds into.old edges
        → C.holds into.new (edges ++ numbered array vias.Element 0 (identifiers_of elements.entry))) }
    ensures keeps { OnOk result (C.keeps into.new ≡ C.keeps into.old) }
{
    let wanted = into.wanted();
    let mut position = 0;
    for to in elements.iter() {
        if wanted.wants(to) {
            let edge = Edge {
                from: array,
                via: Via::Element,
                position,
                to,
            };
            put_edge(edge, into)?;
        }
        position += 1;
    }
    Ok(())
}

/// Puts the wanted edges from the elements of an object array. Most arrays have none, which one fast pass finds.
#[inline(always)]
pub(crate) fn put_elements<C: Collect>(
    array: u64,
    elements: IdList<'_>,
    into: &mut C,
) -> Result<(), AllocError>
    ensures holds { OnOk result ((edges : List Edge) → C.holds into.old edges
        → C.holds into.new (edges ++ numbered array vias.Element 0 (identifiers_of elements.entry))) }
    ensures keeps { OnOk result (C.keeps into.new ≡ C.keeps into.old) }
{
    if !wants_one(into.wanted(), elements) {
        return Ok(());
    }
    put_wanted(array, elements, into)?;
    Ok(())
}

/// Puts the edges from the values of an instance's fields.
pub(crate) fn put_values<C: Collect>(
    instance: u64,
    values: &[FieldValue],
    into: &mut C,
) -> Result<(), AllocError>
    ensures holds { OnOk result ((edges : List Edge) → C.holds into.old edges
        → C.holds into.new (edges ++ numbered instance vias.Field 0 (targets_of_values values.now))) }
    ensures keeps { OnOk result (C.keeps into.new ≡ C.keeps into.old) }
{
    let mut position = 0;
    for value in values {
        let edge = Edge {
            from: instance,
            via: Via::Field,
            position,
            to: target_of(value.basic, value.bits),
        };
        put_edge(edge, into)?;
        position += 1;
    }
    Ok(())
}

/// Puts the edges from the references of an instance's fields.
#[inline(always)]
pub(crate) fn put_references<C: Collect>(
    instance: u64,
    references: &[Reference],
    into: &mut C,
) -> Result<(), AllocError>
    ensures holds { OnOk result ((edges : List Edge) → C.holds into.old edges
        → C.holds into.new (edges ++ reference_edges instance references.now)) }
    ensures keeps { OnOk result (C.keeps into.new ≡ C.keeps into.old) }
{
    for reference in references {
        let edge = Edge {
            from: instance,
            via: Via::Field,
            position: reference.place,
            to: reference.to,
        };
        put_edge(edge, into)?;
    }
    Ok(())
}
