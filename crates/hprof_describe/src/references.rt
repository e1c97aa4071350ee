//! What references lead to, in a line.

ghost use Rattle.std.specs.Prelude.{◌≡◌, ◌++◌, ◌/◌, ℕ, IfOk, bytes_eq, codes, length, string_bytes};
ghost use Rattle.std.specs.Fmt.{decimal};
ghost use Rattle.std.specs.Option.{option_map};
ghost use Rattle.hprof_values.specs.Basic.{width_of_basic};
ghost use Rattle.hprof_heap.specs.ClassDump.{class_value};
ghost use Rattle.hprof_heap.specs.HeapFacts.{facts_of, size_of};
ghost use Rattle.hprof_heap.specs.ObjectDump.{fact_of_object};
ghost use Rattle.hprof_naming.specs.ClassNames.{AreClassNames};
ghost use Rattle.hprof_naming.specs.Naming.{IsNaming, Naming};
ghost use Rattle.hprof_naming.specs.TypeWord.{type_word};
ghost use Rattle.hprof_threads.specs.ThreadNames.{units_in, units_value};
ghost use Rattle.hprof_describe.specs.Findings.{AreFindings, Findings};
ghost use Rattle.hprof_describe.specs.Quoted.{behind_label};
ghost use Rattle.hprof_describe.specs.References.{object_words, reference_text, reference_words, text_of_instance};

use crate::quotes::behind_label;
use hprof_heap::{ClassDump, Heap, ObjectDump, find_class, find_object, holds_of_heap, id_size};
use hprof_naming::{ClassNames, Text, Units, text_of, type_word};
use hprof_threads::thread_name;
use hprof_values::{Basic, IdSize};
use std::alloc::{AllocError, Global};

/// Returns the text of an object, if it has one. The units borrow from the heap.
fn text_units<'a>(alloc: Global, heap: &'a Heap, id: u64) -> Result<Option<Units<'a>>, AllocError>
    ensures { (found : Findings) → AreFindings (size_of heap.now) (facts_of heap.now) found
        → IfOk result (λ units. option_map units_value units ≡ units_in (found.text id)) }
{
    holds_of_heap(heap);
    match text_of(alloc, heap, id)? {
        Text::Units(units) => Ok(Some(units)),
        _ => Ok(None),
    }
}

/// Returns whether a label is that of java.lang.String.
fn is_string(label: &str) -> bool
    ensures { result ≡ bytes_eq label.now (codes "java/lang/String") }
{
    label == "java/lang/String"
}

/// Returns the text of a String, or the name of the thread that another instance is the object of; `None` if it has neither. The units
/// borrow from the heap. `label` is that of its class.
fn text_of_instance<'a>(
    alloc: Global,
    heap: &'a Heap,
    classes: &ClassNames,
    id: u64,
    label: &str,
) -> Result<Option<Units<'a>>, AllocError>
    requires { AreClassNames (facts_of heap.now) classes.now }
    ensures { (found : Findings) (class : ℕ) → AreFindings (size_of heap.now) (facts_of heap.now) found
        → label.now ≡ found.naming.label class
        → IfOk result (λ units. option_map units_value units ≡ text_of_instance found id class) }
{
    holds_of_heap(heap);
    if is_string(label) {
        return text_units(alloc, heap, id);
    }
    thread_name(alloc, heap, classes, id)
}

/// Returns an instance in a line, without its identifier.
fn instance_words(
    alloc: Global,
    heap: &Heap,
    classes: &ClassNames,
    id: u64,
    class: u64,
) -> Result<String, AllocError>
    requires { AreClassNames (facts_of heap.now) classes.now }
    ensures { (found : Findings) → AreFindings (size_of heap.now) (facts_of heap.now) found
        → IfOk result (λ text. string_bytes text ≡ found.naming.label class ++ behind_label (text_of_instance found id class)) }
{
    let label = classes.label(alloc, heap, class)?;
    let units = text_of_instance(alloc, heap, classes, id, &label)?;
    let behind = behind_label(alloc, units)?;
    format!(in alloc; "{label}{behind}")
}

/// Returns an array of that number of objects in a line, without its identifier.
fn elements_words(
    alloc: Global,
    heap: &Heap,
    classes: &ClassNames,
    class: u64,
    count: usize,
) -> Result<String, AllocError>
    requires { AreClassNames (facts_of heap.now) classes.now }
    ensures { (naming : Naming) → IsNaming (facts_of heap.now) naming
        → IfOk result (λ text. string_bytes text ≡ naming.label class ++ codes " of " ++ decimal count) }
{
    let label = classes.label(alloc, heap, class)?;
    format!(in alloc; "{label} of {count}")
}

/// Returns an array of that number of numbers or truth values in a line, without its identifier.
fn values_words(alloc: Global, elem: Basic, count: usize) -> Result<String, AllocError>
    ensures { IfOk result (λ text. string_bytes text ≡ type_word elem ++ codes "[] of " ++ decimal count) }
{
    let word = type_word(elem);
    format!(in alloc; "{word}[] of {count}")
}

/// Returns the number of the elements of an array of numbers or truth values.
fn values_len(ids: IdSize, elem: Basic, bytes: &[u8]) -> usize
    ensures { result ≡ length bytes.now / width_of_basic ids elem }
{
    bytes.len() / elem.width(ids) as usize
}

/// Returns an object in a line, without its identifier: the label of an instance's class, with its text if it is a String, or the name of
/// the thread if it is the object of one; the label or the type of an array, and the number of its elements.
///
/// `classes` are the names of the heap's classes. If memory runs out, the answer is `AllocError`.
pub fn object_words(
    alloc: Global,
    heap: &Heap,
    classes: &ClassNames,
    id: u64,
    dump: ObjectDump<'_>,
) -> Result<String, AllocError>
    requires { AreClassNames (facts_of heap.now) classes.now }
    ensures { (found : Findings) → AreFindings (size_of heap.now) (facts_of heap.now) found
        → IfOk result (λ text. string_bytes text ≡ object_words found id (fact_of_object dump.entry)) }
{
    match dump {
        ObjectDump::Instance { class, .. } => instance_words(alloc, heap, classes, id, class),
        ObjectDump::ObjArray {
            class,
            elements,
            ..
        } => elements_words(alloc, heap, classes, class, elements.len()),
        ObjectDump::PrimArray { elem, bytes, .. } => {
            values_words(alloc, elem, values_len(id_size(heap), elem, bytes))
        }
    }
}

/// Returns what was found where a reference leads to.
fn reference_words(
    alloc: Global,
    heap: &Heap,
    classes: &ClassNames,
    id: u64,
    class: Option<ClassDump<'_>>,
    object: Option<ObjectDump<'_>>,
) -> Result<String, AllocError>
    requires { AreClassNames (facts_of heap.now) classes.now }
    ensures { (found : Findings) → AreFindings (size_of heap.now) (facts_of heap.now) found → IfOk result (λ text. string_bytes text
        ≡ reference_words found id (option_map class_value class.entry) (option_map fact_of_object object.entry)) }
{
    match (class, object) {
        (Some(_), _) => {
            let label = classes.label(alloc, heap, id)?;
            format!(in alloc; "class {label}")
        }
        (None, Some(dump)) => object_words(alloc, heap, classes, id, dump),
        (None, None) => String::from_str(alloc, "not in the dump"),
    }
}

/// Returns what a reference leads to, in a line: `null` for 0; else the identifier, and `class` and the label of a class, an object as
/// [`object_words`] prints it, or `not in the dump`.
///
/// `classes` are the names of the heap's classes. If memory runs out, the answer is `AllocError`.
pub fn reference_text(
    alloc: Global,
    heap: &Heap,
    classes: &ClassNames,
    id: u64,
) -> Result<String, AllocError>
    requires { AreClassNames (facts_of heap.now) classes.now }
    ensures { (found : Findings) → AreFindings (size_of heap.now) (facts_of heap.now) found
        → IfOk result (λ text. string_bytes text ≡ reference_text found id) }
{
    holds_of_heap(heap);
    if id == 0 {
        return String::from_str(alloc, "null");
    }
    let class = find_class(heap, id);
    let object = find_object(heap, id);
    let words = reference_words(alloc, heap, classes, id, class, object)?;
    format!(in alloc; "{id:x} {words}")
}
