//! Classes and objects in a line.

ghost use Rattle.std.specs.Prelude.{◌≡◌, IfOk, string_bytes};
ghost use Rattle.std.specs.Option.{option_map};
ghost use Rattle.hprof_heap.specs.ClassDump.{class_value};
ghost use Rattle.hprof_heap.specs.HeapFacts.{facts_of, size_of};
ghost use Rattle.hprof_heap.specs.ObjectDump.{fact_of_object};
ghost use Rattle.hprof_naming.specs.ClassNames.{AreClassNames};
ghost use Rattle.hprof_naming.specs.Naming.{IsNaming, Naming};
ghost use Rattle.hprof_describe.specs.Findings.{AreFindings, Findings};
ghost use Rattle.hprof_describe.specs.Nodes.{kind_of, kind_of_object, kind_text, name_of_node, node_text};
ghost use Rattle.hprof_describe.specs.Quoted.{behind_label};

use crate::quotes::behind_label;
use hprof_heap::{ClassDump, Heap, ObjectDump, find_class, find_object, holds_of_heap};
use hprof_naming::{ClassNames, type_word};
use hprof_threads::thread_name;
use std::alloc::{AllocError, Global};

/// Returns what an object is: the label of its class, or its type.
fn kind_of_object(
    alloc: Global,
    heap: &Heap,
    classes: &ClassNames,
    dump: ObjectDump<'_>,
) -> Result<String, AllocError>
    requires { AreClassNames (facts_of heap.now) classes.now }
    ensures { (naming : Naming) → IsNaming (facts_of heap.now) naming
        → IfOk result (λ text. string_bytes text ≡ kind_of_object naming (fact_of_object dump.entry)) }
{
    match dump {
        ObjectDump::Instance { class, .. } => classes.label(alloc, heap, class),
        ObjectDump::ObjArray { class, .. } => classes.label(alloc, heap, class),
        ObjectDump::PrimArray { elem, .. } => {
            let word = type_word(elem);
            format!(in alloc; "{word}[]")
        }
    }
}

/// Returns what was found of a node.
fn kind_of(
    alloc: Global,
    heap: &Heap,
    classes: &ClassNames,
    node: u64,
    class: Option<ClassDump<'_>>,
    object: Option<ObjectDump<'_>>,
) -> Result<String, AllocError>
    requires { AreClassNames (facts_of heap.now) classes.now }
    ensures { (naming : Naming) → IsNaming (facts_of heap.now) naming → IfOk result (λ text. string_bytes text
        ≡ kind_of naming node (option_map class_value class.entry) (option_map fact_of_object object.entry)) }
{
    match (class, object) {
        (Some(_), _) => {
            let label = classes.label(alloc, heap, node)?;
            format!(in alloc; "class {label}")
        }
        (None, Some(dump)) => kind_of_object(alloc, heap, classes, dump),
        (None, None) => String::from_str(alloc, "not in the dump"),
    }
}

/// Returns what an identifier is, without the identifier: `class` and the label of a class, the label of an instance's or an array's class,
/// the type of an array of numbers, or `not in the dump`. `classes` are the names of the heap's classes. If memory runs out, the answer is
/// `AllocError`.
pub fn kind_text(
    alloc: Global,
    heap: &Heap,
    classes: &ClassNames,
    node: u64,
) -> Result<String, AllocError>
    requires { AreClassNames (facts_of heap.now) classes.now }
    ensures { (found : Findings) → AreFindings (size_of heap.now) (facts_of heap.now) found
        → IfOk result (λ text. string_bytes text ≡ kind_text found node) }
{
    holds_of_heap(heap);
    let class = find_class(heap, node);
    let object = find_object(heap, node);
    kind_of(alloc, heap, classes, node, class, object)
}

/// Returns what stands behind what an object is: the name of the thread in quotes, or an empty text if it has none.
fn thread_behind(
    alloc: Global,
    heap: &Heap,
    classes: &ClassNames,
    object: u64,
) -> Result<String, AllocError>
    requires { AreClassNames (facts_of heap.now) classes.now }
    ensures { (found : Findings) → AreFindings (size_of heap.now) (facts_of heap.now) found
        → IfOk result (λ text. string_bytes text ≡ behind_label (found.thread_name object)) }
{
    holds_of_heap(heap);
    let name = thread_name(alloc, heap, classes, object)?;
    behind_label(alloc, name)
}

/// Returns what stands behind what a node is: the name of the thread in quotes, or an empty text if it has none or is a class.
fn name_behind(
    alloc: Global,
    heap: &Heap,
    classes: &ClassNames,
    node: u64,
) -> Result<String, AllocError>
    requires { AreClassNames (facts_of heap.now) classes.now }
    ensures { (found : Findings) → AreFindings (size_of heap.now) (facts_of heap.now) found
        → IfOk result (λ text. string_bytes text ≡ behind_label (name_of_node (found.class node) (found.thread_name node))) }
{
    holds_of_heap(heap);
    match find_class(heap, node) {
        Some(_) => Ok(String::new(alloc)),
        None => thread_behind(alloc, heap, classes, node),
    }
}

/// Returns a node in a line, without a line feed: the identifier, what it is, as [`kind_text`] does, and the name of the thread in quotes
/// if it is the object of one. `classes` are the names of the heap's classes. If memory runs out, the answer is `AllocError`.
pub fn node_text(
    alloc: Global,
    heap: &Heap,
    classes: &ClassNames,
    node: u64,
) -> Result<String, AllocError>
    requires { AreClassNames (facts_of heap.now) classes.now }
    ensures { (found : Findings) → AreFindings (size_of heap.now) (facts_of heap.now) found
        → IfOk result (λ text. string_bytes text ≡ node_text found node) }
{
    let kind = kind_text(alloc, heap, classes, node)?;
    let name = name_behind(alloc, heap, classes, node)?;
    format!(in alloc; "{node:x} {kind}{name}")
}
