//! Comparing two heaps.

ghost use Rattle.std.specs.Prelude.{◌≡◌, ◌↔◌, IsTrue};
ghost use Rattle.hprof_heap.specs.Heap.{heap_of};

use crate::heap::Heap;

/// Returns whether two heaps have the same identifier size, the same time and the same facts. Walks over both once, and allocates nothing.
pub fn same(one: &Heap, other: &Heap) -> bool
    ensures { IsTrue result ↔ (heap_of one.now ≡ heap_of other.now) }
{
    if one.ids() != other.ids() {
        return false;
    }
    if one.millis() != other.millis() {
        return false;
    }
    one.same_records(other) && one.same_subs(other)
}
