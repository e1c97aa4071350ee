//! The objects of a kind.

ghost use Rattle.std.specs.Prelude.{◌≡◌};
ghost use Rattle.std.specs.List.Sorted.{IsPermutation, IsSorted};
ghost use Rattle.hprof_heap.specs.HeapFacts.{facts_of, size_of};
ghost use Rattle.hprof_passes.specs.Finding.{Finds};
ghost use Rattle.hprof_histogram.specs.Objects.{AreObjects, object_cmp};

use crate::chosen::{Chosen, chosen_objects};
use crate::row::Kind;
use hprof_heap::Heap;
use hprof_passes::{Objects, PassFault};
use std::alloc::{AllocError, Global};
use std::cmp::Ordering;

/// An object, and the number of bytes of its fields or elements.
#[derive(Clone, Copy, Debug, PartialEq, Eq)]
pub struct SizedObject {
    /// The number of its bytes.
    pub bytes: u64,
    /// Its identifier.
    pub id: u64,
}

/// Compares objects: the most bytes first, then by identifier.
fn compare_objects(object: &SizedObject, other: &SizedObject) -> Ordering
    ensures { result ≡ object_cmp object.now other.now }
{
    let by_bytes = other.bytes.cmp(&object.bytes);
    by_bytes.then(object.id.cmp(&other.id))
}

/// Sorts objects. Allocates nothing.
pub(crate) fn sort_objects(objects: &mut Vec<SizedObject>)
    ensures sorted { IsSorted object_cmp objects.new.items }
    ensures same { IsPermutation objects.old.items objects.new.items }
{
    objects.sort_unstable_by(|object, other| compare_objects(object, other));
}

/// Returns those of the objects that are of a kind, which the histogram counts in one row, each with the number of its bytes. The heap has
/// all other facts.
///
/// They are ordered by bytes, from the most down, and then by identifier.
///
/// # Errors
///
/// - `Sink`: memory ran out.
/// - `Lost`: the objects cannot be gone through.
pub fn objects_of<O: Objects>(
    alloc: Global,
    heap: &Heap,
    objects: &O,
    kind: Kind,
) -> Result<Vec<SizedObject>, PassFault<AllocError, O::Fault>>
    ensures { Finds (O.make_up objects.now (size_of heap.now) (facts_of heap.now))
        (O.agree objects.now (size_of heap.now) (facts_of heap.now))
        (O.tells objects.now (size_of heap.now) (facts_of heap.now)) (λ all found. AreObjects (size_of heap.now) all kind found.items)
        result }
{
    match chosen_objects(alloc, heap, objects, Chosen::Kind(kind)) {
        Ok(found) => Ok(found),
        Err(stop) => Err(stop),
    }
}
