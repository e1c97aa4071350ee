//! The lines of an object dump.

ghost use Rattle.std.specs.Prelude.{◌≡◌, IfOk, string_bytes};
ghost use Rattle.hprof_values.specs.Lists.{identifiers_of};
ghost use Rattle.hprof_heap.specs.HeapFacts.{facts_of};
ghost use Rattle.hprof_naming.specs.Naming.{IsNaming, Naming};
ghost use Rattle.hprof_reports.specs.ObjectText.{counted_line, element_line, elements_line, field_line, instance_line, values_line};

use crate::entries::Entry;
use crate::shown::bits_text;
use hprof_heap::{Heap, id_size};
use hprof_layouts::FieldValue;
use hprof_naming::{class_label, name_text, type_word};
use hprof_values::{Basic, IdList, IdSize};
use std::alloc::{AllocError, Global};

/// Returns the line of an instance. If memory runs out, the answer is `AllocError`.
pub(crate) fn instance_line(
    alloc: Global,
    heap: &Heap,
    id: u64,
    class: u64,
    bytes: &[u8],
) -> Result<String, AllocError>
    ensures { (naming : Naming) → IsNaming (facts_of heap.now) naming
        → IfOk result (λ line. string_bytes line ≡ instance_line naming id class bytes.now) }
{
    let len = bytes.len();
    let label = class_label(alloc, heap, class)?;
    format!(in alloc; "instance {id:x} class {class:x} bytes {len} {label}\n")
}

/// Returns the line of an array of that number of objects, of a class that has this label.
fn counted_line(
    alloc: Global,
    id: u64,
    class: u64,
    len: usize,
    label: &str,
) -> Result<String, AllocError>
    ensures { IfOk result (λ line. string_bytes line ≡ counted_line id class len label.now) }
{
    format!(in alloc; "objects {id:x} class {class:x} elements {len} {label}\n")
}

/// Returns the line of an array of objects. If memory runs out, the answer is `AllocError`.
pub(crate) fn elements_line(
    alloc: Global,
    heap: &Heap,
    id: u64,
    class: u64,
    elements: &IdList<'_>,
) -> Result<String, AllocError>
    ensures { (naming : Naming) → IsNaming (facts_of heap.now) naming
        → IfOk result (λ line. string_bytes line ≡ elements_line naming id class (identifiers_of elements.now)) }
{
    let label = class_label(alloc, heap, class)?;
    counted_line(alloc, id, class, elements.len(), &label)
}

/// Returns the line of an array of numbers or truth values. If memory runs out, the answer is `AllocError`.
pub(crate) fn values_line(
    alloc: Global,
    ids: IdSize,
    id: u64,
    elem: Basic,
    bytes: &[u8],
) -> Result<String, AllocError>
    ensures { IfOk result (λ line. string_bytes line ≡ values_line ids id elem bytes.now) }
{
    let word = type_word(elem);
    let len = bytes.len() / elem.width(ids) as usize;
    format!(in alloc; "values {id:x} {word} elements {len}\n")
}

impl Entry for FieldValue {
    ghost line_at = { field_line };

    fn line(&self, alloc: Global, heap: &Heap, place: u64) -> Result<String, AllocError> {
        let FieldValue {
            class,
            name,
            basic,
            bits,
        } = *self;
        let word = type_word(basic);
        let bits = bits_text(alloc, id_size(heap), basic, bits)?;
        let name = name_text(alloc, heap, name)?;
        format!(in alloc; "field {place} {class:x} {word} {bits} {name}\n")
    }
}

/// An element of an array of objects.
impl Entry for u64 {
    ghost line_at = { λ naming ids. element_line };

    fn line(&self, alloc: Global, _heap: &Heap, place: u64) -> Result<String, AllocError> {
        let element = *self;
        format!(in alloc; "element {place} {element:x}\n")
    }
}
