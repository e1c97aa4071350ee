//! The report `show`: the class dump of an identifier, and then the object dump of it, decoded.

ghost use Rattle.std.specs.Prelude.{◌≡◌, ℕ, List, IfOk, string_bytes};
ghost use Rattle.std.specs.Option.{option_map};
ghost use Rattle.hprof_devices.specs.declared.health.Health.TheVariants.{Well};
ghost use Rattle.hprof_heap.specs.ClassDump.{class_value};
ghost use Rattle.hprof_heap.specs.HeapFacts.{facts_of, size_of};
ghost use Rattle.hprof_heap.specs.ObjectDump.{fact_of_object};
ghost use Rattle.hprof_layouts.specs.Fields.{AreFields, FieldsValue};
ghost use Rattle.hprof_naming.specs.ClassNames.{AreClassNames};
ghost use Rattle.hprof_lines.specs.Stopping.{LeavesTarget, WritesText};
ghost use Rattle.hprof_describe.specs.Findings.{AreFindings, Findings};
ghost use Rattle.hprof_show.specs.ShowText.{IsShowText, contents_text, found_text, object_line, object_text};

use crate::class_lines::write_class;
use crate::element_lines::write_elements;
use crate::field_lines::write_fields;
use crate::number_lines::write_array_values;
use hprof_describe::object_words;
use hprof_devices::Target;
use hprof_engine::ProductFault;
use hprof_heap::{ClassDump, Heap, ObjectDump, find_class, find_object, holds_of_heap};
use hprof_lines::{nothing_line, write_line};
use hprof_naming::ClassNames;
use std::alloc::{AllocError, Global};

/// Returns the line of an object.
fn object_line(
    alloc: Global,
    heap: &Heap,
    classes: &ClassNames,
    id: u64,
    dump: &ObjectDump<'_>,
) -> Result<String, AllocError>
    requires { AreClassNames (facts_of heap.now) classes.now }
    ensures { (found : Findings) → AreFindings (size_of heap.now) (facts_of heap.now) found
        → IfOk result (λ line. string_bytes line ≡ object_line found id (fact_of_object dump.now)) }
{
    let words = object_words(alloc, heap, classes, id, *dump)?;
    format!(in alloc; "{id:x} {words}\n")
}

/// Writes what an object holds. If it stops, some of it was written, from the front.
fn write_contents<W: Target>(
    alloc: Global,
    heap: &Heap,
    classes: &ClassNames,
    id: u64,
    dump: &ObjectDump<'_>,
    target: &mut W,
) -> Result<(), ProductFault>
    requires classes { AreClassNames (facts_of heap.now) classes.now }
    requires well { W.health target.old ≡ Well }
    ensures bytes { (found : Findings) (shown : FieldsValue) → AreFindings (size_of heap.now) (facts_of heap.now) found
        → AreFields (size_of heap.now) (facts_of heap.now) id shown
        → WritesText (W.written target.old) (W.written target.new) result (contents_text found shown (fact_of_object dump.now)) }
    ensures health { LeavesTarget result (W.health target.new) }
{
    match *dump {
        ObjectDump::Instance { class, .. } => {
            write_fields(alloc, heap, classes, id, class, target)
        }
        ObjectDump::ObjArray { elements, .. } => {
            write_elements(alloc, heap, classes, &elements, target)
        }
        ObjectDump::PrimArray { elem, bytes, .. } => {
            write_array_values(alloc, heap, classes, elem, bytes, target)
        }
    }
}

/// Writes an object in a line, and what it holds. If it stops, some of it was written, from the front.
fn write_object<W: Target>(
    alloc: Global,
    heap: &Heap,
    classes: &ClassNames,
    id: u64,
    dump: &ObjectDump<'_>,
    target: &mut W,
) -> Result<(), ProductFault>
    requires classes { AreClassNames (facts_of heap.now) classes.now }
    requires well { W.health target.old ≡ Well }
    ensures bytes { (found : Findings) (shown : FieldsValue) → AreFindings (size_of heap.now) (facts_of heap.now) found
        → AreFields (size_of heap.now) (facts_of heap.now) id shown
        → WritesText (W.written target.old) (W.written target.new) result (object_text found id shown (fact_of_object dump.now)) }
    ensures health { LeavesTarget result (W.health target.new) }
{
    write_line(object_line(alloc, heap, classes, id, dump), target)?;
    write_contents(alloc, heap, classes, id, dump, target)
}

/// Writes the dumps that were found of an identifier. If it stops, some of it was written, from the front.
fn write_found<W: Target>(
    alloc: Global,
    heap: &Heap,
    classes: &ClassNames,
    id: u64,
    class: Option<ClassDump<'_>>,
    object: Option<ObjectDump<'_>>,
    target: &mut W,
) -> Result<(), ProductFault>
    requires classes { AreClassNames (facts_of heap.now) classes.now }
    requires well { W.health target.old ≡ Well }
    ensures bytes { (found : Findings) (shown : FieldsValue) → AreFindings (size_of heap.now) (facts_of heap.now) found
        → AreFields (size_of heap.now) (facts_of heap.now) id shown
        → WritesText (W.written target.old) (W.written target.new) result
        (found_text found id shown (option_map class_value class.entry) (option_map fact_of_object object.entry)) }
    ensures health { LeavesTarget result (W.health target.new) }
{
    match (class, object) {
        (None, None) => write_line(nothing_line(alloc, id), target),
        (Some(dump), None) => write_class(alloc, heap, classes, &dump, target),
        (None, Some(dump)) => write_object(alloc, heap, classes, id, &dump, target),
        (Some(dump), Some(object)) => {
            write_class(alloc, heap, classes, &dump, target)?;
            write_object(alloc, heap, classes, id, &object, target)
        }
    }
}

/// Writes the report `show` on an identifier: its class dump with what it refers to, its constants, static fields and own fields; then its
/// object dump with its fields, its elements or its text. Of an identifier that has neither it says so.
///
/// An instance has a line for each field, in the order of the layout, or a line that says why there are none. An array of objects has a
/// line for each of its first 100 elements that are not 0. An array of characters or bytes has its text. An array of bytes or of other
/// numbers has its first 256 numbers. Values are as [`hprof_describe::value_text`] prints them.
///
/// `classes` are the names of the heap's classes. If the writer fails or memory runs out, the bytes written are the beginning of the
/// report. The form of the report is this project's own.
pub fn write_show<W: Target>(
    alloc: Global,
    heap: &Heap,
    classes: &ClassNames,
    id: u64,
    target: &mut W,
) -> Result<(), ProductFault>
    requires classes { AreClassNames (facts_of heap.now) classes.now }
    requires well { W.health target.old ≡ Well }
    ensures bytes { (text : List ℕ) × IsShowText (size_of heap.now) (facts_of heap.now) id text
        × WritesText (W.written target.old) (W.written target.new) result text }
    ensures health { LeavesTarget result (W.health target.new) }
{
    holds_of_heap(heap);
    let class = find_class(heap, id);
    let object = find_object(heap, id);
    write_found(alloc, heap, classes, id, class, object, target)
}
