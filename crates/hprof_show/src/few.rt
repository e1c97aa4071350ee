//! The heap of the objects that the report `show` is read from.

ghost use Rattle.std.specs.Prelude.{◌≡◌, [], ◌∷◌, IfOk};
ghost use Rattle.hprof_heap.specs.Heap.{heap_of};
ghost use Rattle.hprof_heap.specs.HeapFacts.{facts_of, size_of};
ghost use Rattle.hprof_passes.specs.Finding.{Finds};
ghost use Rattle.hprof_words.specs.Few.{IsFew};
ghost use Rattle.hprof_show.specs.ShownObjects.{HasShownIds, IsShownHeap};

use crate::shown::shown_ids;
use hprof_heap::Heap;
use hprof_passes::{Objects, PassFault};
use hprof_words::{Few, few_more, few_of, words_of_few};
use std::alloc::{AllocError, Global};

/// Returns a list of one identifier. If memory runs out, the answer is `AllocError`.
fn only(alloc: Global, id: u64) -> Result<Vec<u64>, AllocError>
    ensures { IfOk result (λ ids. ids.items ≡ id ∷ []) }
{
    let mut ids = Vec::new(alloc);
    ids.push(id)?;
    Ok(ids)
}

/// Returns the heap of the objects of which the report on an identifier says what they are.
fn few_shown<O: Objects>(
    alloc: Global,
    heap: &Heap,
    objects: &O,
    id: u64,
) -> Result<Few, PassFault<AllocError, O::Fault>>
    ensures { Finds (O.make_up objects.now (size_of heap.now) (facts_of heap.now))
        (O.agree objects.now (size_of heap.now) (facts_of heap.now)) (O.tells objects.now (size_of heap.now) (facts_of heap.now))
        (λ all few. IsFew (heap_of heap.now).millis (size_of heap.now) all few
        × HasShownIds (size_of heap.now) all id few.wanted.items) result }
{
    let wanted = match only(alloc, id) {
        Ok(wanted) => wanted,
        Err(fault) => return Err(PassFault::Sink(fault)),
    };
    let few = few_of(alloc, heap, objects, wanted)?;
    match shown_ids(alloc, &few.heap, id) {
        Ok(shown) => few_more(alloc, heap, objects, few, shown),
        Err(fault) => Err(PassFault::Sink(fault)),
    }
}

/// Returns the heap of all objects that the report on an identifier is read from. Picks the object; then what it refers to; then
/// arrays of texts, and names of threads; and then the arrays of these names. What would give the same objects is left out.
///
/// # Errors
///
/// Those of `small_heap`.
pub(crate) fn show_heap<O: Objects>(
    alloc: Global,
    heap: &Heap,
    objects: &O,
    id: u64,
) -> Result<Heap, PassFault<AllocError, O::Fault>>
    ensures { Finds (O.make_up objects.now (size_of heap.now) (facts_of heap.now))
        (O.agree objects.now (size_of heap.now) (facts_of heap.now)) (O.tells objects.now (size_of heap.now) (facts_of heap.now))
        (λ all. IsShownHeap (size_of heap.now) id all) result }
{
    let shown = few_shown(alloc, heap, objects, id)?;
    words_of_few(alloc, heap, objects, shown)
}
