//! The report `object`: the class dump of an identifier, and then the object dump of it.

ghost use Rattle.std.specs.Prelude.{◌≡◌, ℕ, List, IfOk, string_bytes};
ghost use Rattle.std.specs.Option.{option_map};
ghost use Rattle.hprof_devices.specs.declared.health.Health.TheVariants.{Well};
ghost use Rattle.hprof_heap.specs.HeapFacts.{facts_of, size_of};
ghost use Rattle.hprof_heap.specs.ClassDump.{class_value};
ghost use Rattle.hprof_heap.specs.ObjectDump.{fact_of_object};
ghost use Rattle.hprof_layouts.specs.Fields.{AreFields, FieldsValue, fields_value};
ghost use Rattle.hprof_naming.specs.Naming.{IsNaming, Naming};
ghost use Rattle.hprof_reports.specs.ObjectText.{IsObjectText, class_text, fields_text, found_text, object_text, why_no_fields};
ghost use Rattle.hprof_lines.specs.Line.{nothing_line};
ghost use Rattle.hprof_lines.specs.Stopping.{LeavesTarget, WritesText};

use crate::class_lines::class_line;
use crate::contents::write_contents;
use crate::entries::write_entries;
use crate::object_lines::{elements_line, instance_line, values_line};
use hprof_devices::Target;
use hprof_engine::ProductFault;
use hprof_heap::{ClassDump, Heap, ObjectDump, find_class, find_object, holds_of_heap, id_size};
use hprof_layouts::{Fields, fields};
use hprof_lines::{nothing_line, write_line};
use std::alloc::{AllocError, Global};

/// Writes the contents of a class dump.
fn write_class<W: Target>(
    alloc: Global,
    heap: &Heap,
    dump: &ClassDump<'_>,
    target: &mut W,
) -> Result<(), ProductFault>
    requires { W.health target.old ≡ Well }
    ensures bytes { (naming : Naming) → IsNaming (facts_of heap.now) naming
        → WritesText (W.written target.old) (W.written target.new) result
        (class_text naming (size_of heap.now) (class_value dump.now)) }
    ensures health { LeavesTarget result (W.health target.new) }
{
    write_line(class_line(alloc, heap, dump), target)?;
    let ClassDump {
        constants,
        statics,
        fields,
        ..
    } = *dump;
    write_entries(alloc, heap, constants.len(), constants.iter(), target)?;
    write_entries(alloc, heap, statics.len(), statics.iter(), target)?;
    write_entries(alloc, heap, fields.len(), fields.iter(), target)
}

/// Returns the line that says why an instance has no fields, or an empty text for any other answer.
pub fn no_fields_line(alloc: Global, why: &Fields) -> Result<String, AllocError>
    ensures { IfOk result (λ line. string_bytes line ≡ why_no_fields (fields_value why.now)) }
{
    match why {
        Fields::Missing(class) => format!(in alloc; "no layout: class {class:x} is missing\n"),
        Fields::Cyclic => String::from_str(alloc, "no layout: the superclasses run in a circle\n"),
        Fields::WidthDiffers(width) => {
            format!(in alloc; "no fields: the layout has {width} bytes\n")
        }
        Fields::Values(_) | Fields::NotAnInstance | Fields::NoObject => Ok(String::new(alloc)),
    }
}

/// Writes a line for each field of an object, or why there are none.
fn write_fields<W: Target>(
    alloc: Global,
    heap: &Heap,
    object: u64,
    target: &mut W,
) -> Result<(), ProductFault>
    requires { W.health target.old ≡ Well }
    ensures bytes { (naming : Naming) (shown : FieldsValue) → IsNaming (facts_of heap.now) naming
        → AreFields (size_of heap.now) (facts_of heap.now) object shown
        → WritesText (W.written target.old) (W.written target.new) result
        (fields_text naming (size_of heap.now) shown) }
    ensures health { LeavesTarget result (W.health target.new) }
{
    holds_of_heap(heap);
    match fields(alloc, heap, object)? {
        Fields::Values(values) => {
            let values = values.as_slice();
            write_entries(alloc, heap, values.len(), values, target)
        }
        why => write_line(no_fields_line(alloc, &why), target),
    }
}

/// Writes the contents of an object dump.
fn write_object_dump<W: Target>(
    alloc: Global,
    heap: &Heap,
    object: u64,
    dump: &ObjectDump<'_>,
    target: &mut W,
) -> Result<(), ProductFault>
    requires { W.health target.old ≡ Well }
    ensures bytes { (naming : Naming) (shown : FieldsValue) → IsNaming (facts_of heap.now) naming
        → AreFields (size_of heap.now) (facts_of heap.now) object shown
        → WritesText (W.written target.old) (W.written target.new) result
        (object_text naming (size_of heap.now) shown (fact_of_object dump.now)) }
    ensures health { LeavesTarget result (W.health target.new) }
{
    match *dump {
        ObjectDump::Instance {
            id,
            class,
            bytes,
            ..
        } => {
            write_line(instance_line(alloc, heap, id, class, bytes), target)?;
            write_fields(alloc, heap, object, target)
        }
        ObjectDump::ObjArray {
            id,
            class,
            elements,
            ..
        } => {
            write_line(elements_line(alloc, heap, id, class, &elements), target)?;
            write_entries(alloc, heap, elements.len(), elements.iter(), target)
        }
        ObjectDump::PrimArray {
            id,
            elem,
            bytes,
            ..
        } => {
            write_line(values_line(alloc, id_size(heap), id, elem, bytes), target)?;
            write_contents(bytes, target)
        }
    }
}

/// Writes the dumps that were found of an identifier.
fn write_found<W: Target>(
    alloc: Global,
    heap: &Heap,
    id: u64,
    class: Option<ClassDump<'_>>,
    object: Option<ObjectDump<'_>>,
    target: &mut W,
) -> Result<(), ProductFault>
    requires { W.health target.old ≡ Well }
    ensures bytes { (naming : Naming) (shown : FieldsValue) → IsNaming (facts_of heap.now) naming
        → AreFields (size_of heap.now) (facts_of heap.now) id shown
        → WritesText (W.written target.old) (W.written target.new) result
        (found_text naming (size_of heap.now) id shown (option_map class_value class.entry) (option_map fact_of_object object.entry)) }
    ensures health { LeavesTarget result (W.health target.new) }
{
    match (class, object) {
        (None, None) => write_line(nothing_line(alloc, id), target),
        (Some(dump), None) => write_class(alloc, heap, &dump, target),
        (None, Some(dump)) => write_object_dump(alloc, heap, id, &dump, target),
        (Some(dump), Some(object)) => {
            write_class(alloc, heap, &dump, target)?;
            write_object_dump(alloc, heap, id, &object, target)
        }
    }
}

/// Writes the report `object` on an identifier: the lines of its class dump, then those of its object dump, or that it has
/// neither. If the writer fails or memory runs out, the bytes written are the beginning of the report.
pub fn write_object<W: Target>(
    alloc: Global,
    heap: &Heap,
    id: u64,
    target: &mut W,
) -> Result<(), ProductFault>
    requires { W.health target.old ≡ Well }
    ensures bytes { (text : List ℕ) × IsObjectText (size_of heap.now) (facts_of heap.now) id text
        × WritesText (W.written target.old) (W.written target.new) result text }
    ensures health { LeavesTarget result (W.health target.new) }
{
    holds_of_heap(heap);
    let class = find_class(heap, id);
    let object = find_object(heap, id);
    write_found(alloc, heap, id, class, object, target)
}
