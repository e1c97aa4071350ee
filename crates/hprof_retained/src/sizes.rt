//! The sizes of nodes.

ghost use Rattle.std.specs.Prelude.{◌≡◌};
ghost use Rattle.hprof_heap.specs.HeapFacts.{facts_of, size_of};
ghost use Rattle.hprof_heap.specs.ObjectDump.{ElementsHave, fact_of_object};
ghost use Rattle.hprof_histogram.specs.Histogram.{size_of_object};
ghost use Rattle.hprof_retained.specs.Retained.{IsSizeOf};

use hprof_heap::{Cursor, Heap, ObjectDump, find_object_near, id_size};
use hprof_values::IdSize;

/// Returns the bytes of the fields or the elements of an object with identifiers of that size.
#[inline(always)]
pub fn bytes_of_dump(dump: &ObjectDump<'_>, ids: IdSize) -> u64
    requires { ElementsHave ids dump.now }
    ensures { result ≡ size_of_object ids (fact_of_object dump.now) }
{
    match *dump {
        ObjectDump::Instance { bytes, .. } => bytes.len() as u64,
        ObjectDump::ObjArray { elements, .. } => elements.len() as u64 * ids.width() as u64,
        ObjectDump::PrimArray { bytes, .. } => bytes.len() as u64,
    }
}

/// Returns the bytes of the fields or the elements of an object, or 0 of what is no object. `near` is where the last object was found; it
/// affects only speed.
pub fn size_of_node(heap: &Heap, node: u64, near: &mut Cursor) -> u64
    ensures { IsSizeOf (size_of heap.now) (facts_of heap.now) node result }
{
    match find_object_near(heap, node, near) {
        Some(dump) => bytes_of_dump(&dump, id_size(heap)),
        None => 0,
    }
}
