//! The heap of the objects that the report `text` needs: a string, and the array of its characters.

ghost use Rattle.std.specs.Prelude.{◌≢◌, IfOk};
ghost use Rattle.hprof_heap.specs.Heap.{heap_of};
ghost use Rattle.hprof_heap.specs.HeapFacts.{facts_of, size_of};
ghost use Rattle.hprof_layouts.specs.Fields.{AreFields, FieldsValue};
ghost use Rattle.hprof_passes.specs.Finding.{Finds};
ghost use Rattle.hprof_reports.specs.TextObjects.{IsHeapOfTwo, IsTextHeap, IsValueArray};

use hprof_heap::Heap;
use hprof_layouts::{Fields, fields};
use hprof_naming::{first_named, target_of_field};
use hprof_passes::{Objects, PassFault};
use hprof_small::small_heap;
use std::alloc::{AllocError, Global};

/// Returns the identifier to which the first field `value` of an object refers, or 0 if it refers to nothing or there is none. If memory
/// runs out, the answer is `AllocError`.
pub fn value_array(alloc: Global, heap: &Heap, id: u64) -> Result<u64, AllocError>
    ensures { IfOk result (λ array. (shown : FieldsValue) × AreFields (size_of heap.now) (facts_of heap.now) id shown
        × IsValueArray (facts_of heap.now) shown array) }
{
    match fields(alloc, heap, id)? {
        Fields::Values(values) => Ok(target_of_field(first_named(heap, b"value", &values))),
        _ => Ok(0),
    }
}

/// Returns the heap of two objects, as `small_heap` does.
fn heap_of_two<O: Objects>(
    alloc: Global,
    heap: &Heap,
    objects: &O,
    one: u64,
    other: u64,
) -> Result<Heap, PassFault<AllocError, O::Fault>>
    requires { one ≢ other }
    ensures { Finds (O.make_up objects.now (size_of heap.now) (facts_of heap.now))
        (O.agree objects.now (size_of heap.now) (facts_of heap.now))
        (O.tells objects.now (size_of heap.now) (facts_of heap.now))
        (λ all. IsHeapOfTwo (heap_of heap.now).millis (size_of heap.now) one other all) result }
{
    if one < other {
        small_heap(alloc, heap, objects, &[one, other])
    } else {
        small_heap(alloc, heap, objects, &[other, one])
    }
}

/// Returns the heap of the object with an identifier, and of the array to which its first field `value` refers. Goes through the objects
/// once for the object, and again if it refers to an array.
///
/// # Errors
///
/// Those of `small_heap`.
pub(crate) fn text_heap<O: Objects>(
    alloc: Global,
    heap: &Heap,
    objects: &O,
    id: u64,
) -> Result<Heap, PassFault<AllocError, O::Fault>>
    ensures { Finds (O.make_up objects.now (size_of heap.now) (facts_of heap.now))
        (O.agree objects.now (size_of heap.now) (facts_of heap.now))
        (O.tells objects.now (size_of heap.now) (facts_of heap.now))
        (λ all. IsTextHeap (size_of heap.now) id all) result }
{
    let string = match small_heap(alloc, heap, objects, &[id]) {
        Ok(string) => string,
        Err(stop) => return Err(stop),
    };
    let array = match value_array(alloc, &string, id) {
        Ok(array) => array,
        Err(fault) => return Err(PassFault::Sink(fault)),
    };
    if array == 0 || array == id {
        return Ok(string);
    }
    drop(string);
    heap_of_two(alloc, heap, objects, id, array)
}
