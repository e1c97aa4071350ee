//! The identifiers of which the report `show` says what they are.

ghost use Rattle.std.specs.Prelude.{◌≡◌, ◌++◌, IfOk, OnOk};
ghost use Rattle.std.specs.Option.{option_map};
ghost use Rattle.std.specs.List.Sorted.{IsStrictlyIncreasing};
ghost use Rattle.hprof_heap.specs.ClassDump.{class_value};
ghost use Rattle.hprof_heap.specs.HeapFacts.{facts_of, size_of};
ghost use Rattle.hprof_heap.specs.ObjectDump.{fact_of_object};
ghost use Rattle.hprof_layouts.specs.Fields.{AreFields, FieldsValue};
ghost use Rattle.hprof_values.specs.Lists.{entries_of, identifiers_of};
ghost use Rattle.hprof_threads.specs.ThreadNames.{values_of};
ghost use Rattle.hprof_show.specs.Shown.{class_referents, constant_referents, element_referents, field_referents, found_class_referents};
ghost use Rattle.hprof_show.specs.Shown.{found_object_referents, object_referents, referent, static_referents};
ghost use Rattle.hprof_show.specs.ShownObjects.{HasShownIds};

use hprof_heap::{ClassDump, Heap, ObjectDump, find_class, find_object, holds_of_heap};
use hprof_layouts::{FieldValue, Fields, fields, refers};
use hprof_reach::sort_once;
use hprof_values::{Basic, ConstantList, IdList, StaticList};
use std::alloc::{AllocError, Global};

/// The number of elements that are told of an array of objects.
const MOST_ELEMENTS: usize = 100;

/// Returns the identifier that a value of the type with these bits refers to, or 0 if it is no reference.
fn referent(basic: Basic, bits: u64) -> u64
    ensures { result ≡ referent basic bits }
{
    if refers(basic) { bits } else { 0 }
}

/// Appends what the constants of a class refer to.
fn push_constants(ids: &mut Vec<u64>, constants: ConstantList<'_>) -> Result<(), AllocError>
    ensures { OnOk result (ids.new.items ≡ ids.old.items ++ constant_referents (entries_of constants.entry)) }
{
    for constant in constants.iter() {
        ids.push(referent(constant.value.basic, constant.value.bits))?;
    }
    Ok(())
}

/// Appends what the static fields of a class refer to.
fn push_statics(ids: &mut Vec<u64>, statics: StaticList<'_>) -> Result<(), AllocError>
    ensures { OnOk result (ids.new.items ≡ ids.old.items ++ static_referents (entries_of statics.entry)) }
{
    for field in statics.iter() {
        ids.push(referent(field.value.basic, field.value.bits))?;
    }
    Ok(())
}

/// Appends what a class refers to.
fn push_class(ids: &mut Vec<u64>, dump: &ClassDump<'_>) -> Result<(), AllocError>
    ensures { OnOk result (ids.new.items ≡ ids.old.items ++ class_referents (class_value dump.now)) }
{
    ids.push(dump.parent)?;
    ids.push(dump.loader)?;
    ids.push(dump.signers)?;
    ids.push(dump.domain)?;
    push_constants(ids, dump.constants)?;
    push_statics(ids, dump.statics)
}

/// Appends what these fields refer to.
fn push_values(ids: &mut Vec<u64>, values: &[FieldValue]) -> Result<(), AllocError>
    ensures { OnOk result (ids.new.items ≡ ids.old.items ++ field_referents values.now) }
{
    for value in values {
        ids.push(referent(value.basic, value.bits))?;
    }
    Ok(())
}

/// Appends the first 100 elements that are not 0.
fn push_elements(ids: &mut Vec<u64>, elements: IdList<'_>) -> Result<(), AllocError>
    ensures { OnOk result (ids.new.items ≡ ids.old.items ++ element_referents (identifiers_of elements.entry)) }
{
    let mut told = 0;
    for id in elements.iter() {
        if told == MOST_ELEMENTS {
            return Ok(());
        }
        if id != 0 {
            ids.push(id)?;
            told += 1;
        }
    }
    Ok(())
}

/// Appends what the fields of an instance refer to.
fn push_fields(alloc: Global, heap: &Heap, id: u64, ids: &mut Vec<u64>) -> Result<(), AllocError>
    ensures { (shown : FieldsValue) → AreFields (size_of heap.now) (facts_of heap.now) id shown
        → OnOk result (ids.new.items ≡ ids.old.items ++ field_referents (values_of shown)) }
{
    holds_of_heap(heap);
    match fields(alloc, heap, id)? {
        Fields::Values(values) => push_values(ids, &values),
        _ => Ok(()),
    }
}

/// Appends what an object refers to, as far as the report says what it is.
fn push_object(
    alloc: Global,
    heap: &Heap,
    id: u64,
    dump: &ObjectDump<'_>,
    ids: &mut Vec<u64>,
) -> Result<(), AllocError>
    ensures { (shown : FieldsValue) → AreFields (size_of heap.now) (facts_of heap.now) id shown
        → OnOk result (ids.new.items ≡ ids.old.items ++ object_referents shown (fact_of_object dump.now)) }
{
    match *dump {
        ObjectDump::Instance { .. } => push_fields(alloc, heap, id, ids),
        ObjectDump::ObjArray { elements, .. } => push_elements(ids, elements),
        ObjectDump::PrimArray { .. } => Ok(()),
    }
}

/// Appends what the class dump that was found refers to, if one was.
fn push_found_class(ids: &mut Vec<u64>, class: Option<ClassDump<'_>>) -> Result<(), AllocError>
    ensures { OnOk result (ids.new.items ≡ ids.old.items ++ found_class_referents (option_map class_value class.entry)) }
{
    match class {
        Some(dump) => push_class(ids, &dump),
        None => Ok(()),
    }
}

/// Appends what the object dump that was found refers to, if one was.
fn push_found_object(
    alloc: Global,
    heap: &Heap,
    id: u64,
    object: Option<ObjectDump<'_>>,
    ids: &mut Vec<u64>,
) -> Result<(), AllocError>
    ensures { (shown : FieldsValue) → AreFields (size_of heap.now) (facts_of heap.now) id shown → OnOk result (ids.new.items
        ≡ ids.old.items ++ found_object_referents shown (option_map fact_of_object object.entry)) }
{
    match object {
        Some(dump) => push_object(alloc, heap, id, &dump, ids),
        None => Ok(()),
    }
}

/// Returns the identifiers of which the report on an identifier says what they are, sorted, each once. If memory runs out, the answer is
/// `AllocError`.
pub(crate) fn shown_ids(alloc: Global, heap: &Heap, id: u64) -> Result<Vec<u64>, AllocError>
    ensures ascend { IfOk result (λ ids. IsStrictlyIncreasing ids.items) }
    ensures has { IfOk result (λ ids. HasShownIds (size_of heap.now) (facts_of heap.now) id ids.items) }
{
    holds_of_heap(heap);
    let class = find_class(heap, id);
    let object = find_object(heap, id);
    let mut ids = Vec::new(alloc);
    ids.push(id)?;
    push_found_class(&mut ids, class)?;
    push_found_object(alloc, heap, id, object, &mut ids)?;
    sort_once(&mut ids)?;
    Ok(ids)
}
