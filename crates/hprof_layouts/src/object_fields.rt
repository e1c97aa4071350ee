//! The fields of an object.

ghost use Rattle.std.specs.Prelude.{IfOk};
ghost use Rattle.hprof_heap.specs.HeapFacts.{facts_of, size_of};
ghost use Rattle.hprof_layouts.specs.Fields.{AreFields, AreInstanceFields, fields_value};

use crate::class_layout::layout;
use crate::cutting::{cut, width_of_slots};
use crate::field_value::Fields;
use crate::slot::Layout;
use hprof_heap::{Heap, ObjectDump, find_object, id_size};
use std::alloc::{AllocError, Global};

/// Returns the fields of an instance with these bytes.
fn instance_fields(
    alloc: Global,
    heap: &Heap,
    class: u64,
    bytes: &[u8],
) -> Result<Fields, AllocError>
    ensures { IfOk result (λ fields. AreInstanceFields (size_of heap.now) (facts_of heap.now) class bytes.now
        (fields_value fields)) }
{
    match layout(alloc, heap, class)? {
        Layout::Missing(missing) => Ok(Fields::Missing(missing)),
        Layout::Cyclic => Ok(Fields::Cyclic),
        Layout::Known(slots) => {
            let ids = id_size(heap);
            let width = width_of_slots(&slots, ids);
            if width != bytes.len() as u128 {
                return Ok(Fields::WidthDiffers(width));
            }
            Ok(Fields::Values(cut(alloc, &slots, bytes, ids)?))
        }
    }
}

/// Returns the fields of an object with their values, or why it has none. If memory runs out, the answer is `AllocError`.
pub fn fields(alloc: Global, heap: &Heap, object: u64) -> Result<Fields, AllocError>
    ensures { IfOk result (λ fields. AreFields (size_of heap.now) (facts_of heap.now) object (fields_value fields)) }
{
    match find_object(heap, object) {
        None => Ok(Fields::NoObject),
        Some(ObjectDump::Instance { class, bytes, .. }) => {
            instance_fields(alloc, heap, class, bytes)
        }
        Some(ObjectDump::ObjArray { .. }) => Ok(Fields::NotAnInstance),
        Some(ObjectDump::PrimArray { .. }) => Ok(Fields::NotAnInstance),
    }
}
