//! The name of a thread.

ghost use Rattle.std.specs.Prelude.{◌≡◌, true, false, IfOk};
ghost use Rattle.std.specs.Option.{option_map};
ghost use Rattle.hprof_heap.specs.HeapFacts.{facts_of, size_of};
ghost use Rattle.hprof_layouts.specs.declared.field_value.FieldValue.{FieldValue};
ghost use Rattle.hprof_layouts.specs.Fields.{AreFields, FieldsValue};
ghost use Rattle.hprof_naming.specs.ClassNames.{AreClassNames};
ghost use Rattle.hprof_threads.specs.ThreadNames.{HoldsName, IsFirstHolding, IsNameObject, IsNameOf, IsThreadName, units_value};

use hprof_heap::Heap;
use hprof_layouts::{FieldValue, Fields, fields};
use hprof_naming::{ClassNames, Text, Units, is_called, is_named, target_of_field, text_of};
use std::alloc::{AllocError, Global};

/// Returns whether a field holds the name of a thread.
fn holds_name(heap: &Heap, classes: &ClassNames, field: &FieldValue) -> bool
    ensures yes { AreClassNames (facts_of heap.now) classes.now → result ≡ true → HoldsName (facts_of heap.now) field.now }
    ensures no { AreClassNames (facts_of heap.now) classes.now → result ≡ false → ¬ (HoldsName (facts_of heap.now) field.now) }
{
    is_named(heap, field.name, b"name")
        && is_called(heap, classes, field.class, b"java/lang/Thread")
}

/// Returns the first of the fields that holds the name of a thread, or `None` if none does.
fn first_holding(heap: &Heap, classes: &ClassNames, values: &[FieldValue]) -> Option<FieldValue>
    ensures { AreClassNames (facts_of heap.now) classes.now → IsFirstHolding (facts_of heap.now) values.now result }
{
    for value in values {
        if holds_name(heap, classes, value) {
            return Some(*value);
        }
    }
    None
}

/// Returns the text of an identifier, if it is one. The units borrow from the heap.
fn units_of_text<'a>(
    alloc: Global,
    heap: &'a Heap,
    id: u64,
) -> Result<Option<Units<'a>>, AllocError>
    ensures { IfOk result (λ name. IsNameOf (size_of heap.now) (facts_of heap.now) id (option_map units_value name)) }
{
    if id == 0 {
        return Ok(None);
    }
    match text_of(alloc, heap, id)? {
        Text::Units(units) => Ok(Some(units)),
        _ => Ok(None),
    }
}

/// Returns the identifier to which the first field refers that holds the name of a thread, or 0 if none does or it refers to nothing.
/// `classes` are the names of the heap's classes. If memory runs out, the answer is `AllocError`.
pub fn name_object(
    alloc: Global,
    heap: &Heap,
    classes: &ClassNames,
    object: u64,
) -> Result<u64, AllocError>
    ensures { AreClassNames (facts_of heap.now) classes.now
        → IfOk result (λ name. (shown : FieldsValue) × AreFields (size_of heap.now) (facts_of heap.now) object shown
        × IsNameObject (facts_of heap.now) shown name) }
{
    match fields(alloc, heap, object)? {
        Fields::Values(values) => {
            let field = first_holding(heap, classes, &values);
            Ok(target_of_field(field))
        }
        _ => Ok(0),
    }
}

/// Returns the name of the thread with this object, or `None` if it has none. The units borrow from the heap. If memory runs out, the
/// answer is `AllocError`.
///
/// The object is an instance. Its name is the text of the first field, in the order of the layout, that is called `name` and that the
/// layout takes from a class called `java/lang/Thread`. If that field is no reference, is 0, or refers to no text, there is no name.
///
/// `classes` are the names of the heap's classes. This rule is this project's own.
pub fn thread_name<'a>(
    alloc: Global,
    heap: &'a Heap,
    classes: &ClassNames,
    object: u64,
) -> Result<Option<Units<'a>>, AllocError>
    ensures { AreClassNames (facts_of heap.now) classes.now
        → IfOk result (λ name. IsThreadName (size_of heap.now) (facts_of heap.now) object (option_map units_value name)) }
{
    let name = name_object(alloc, heap, classes, object)?;
    units_of_text(alloc, heap, name)
}
