//! The objects from which the words for other objects are read: those that their first fields `value` refer to, which are the arrays of
//! strings, and the names of threads.

ghost use Rattle.std.specs.Prelude.{◌≡◌, ◌⊎◌, ◌++◌, List, ℕ, Contains, IfOk, OnOk};
ghost use Rattle.std.specs.List.Sorted.{IsStrictlyIncreasing};
ghost use Rattle.hprof_heap.specs.HeapFacts.{facts_of, size_of};
ghost use Rattle.hprof_naming.specs.ClassNames.{AreClassNames};
ghost use Rattle.hprof_words.specs.Words.{HasNext, HasNextOf};

use hprof_heap::{Heap, holds_of_heap};
use hprof_naming::ClassNames;
use hprof_reach::sort_once;
use hprof_reports::value_array;
use hprof_threads::name_object;
use std::alloc::{AllocError, Global};

/// Appends an identifier, unless it is 0.
fn push_some(ids: &mut Vec<u64>, id: u64) -> Result<(), AllocError>
    ensures grows { OnOk result ((more : List ℕ) × (ids.new.items ≡ ids.old.items ++ more)) }
    ensures has { OnOk result ((id ≡ 0) ⊎ Contains ids.new.items id) }
{
    if id != 0 {
        ids.push(id)?;
    }
    Ok(())
}

/// Appends an object, what its first field `value` refers to, and the name of the thread that it is the object of.
fn push_next(
    alloc: Global,
    heap: &Heap,
    classes: &ClassNames,
    id: u64,
    needed: &mut Vec<u64>,
) -> Result<(), AllocError>
    requires { AreClassNames (facts_of heap.now) classes.now }
    ensures grows { OnOk result ((more : List ℕ) × (needed.new.items ≡ needed.old.items ++ more)) }
    ensures has { OnOk result (HasNext (size_of heap.now) (facts_of heap.now) needed.new.items id) }
{
    holds_of_heap(heap);
    let array = value_array(alloc, heap, id)?;
    let name = name_object(alloc, heap, classes, id)?;
    needed.push(id)?;
    push_some(needed, array)?;
    push_some(needed, name)?;
    Ok(())
}

/// Returns these identifiers, and those that are read next for their words: what their first fields `value` refer to, and the names of
/// threads. They are sorted, each once. If memory runs out, the answer is `AllocError`.
pub(crate) fn needed_for(alloc: Global, heap: &Heap, some: &[u64]) -> Result<Vec<u64>, AllocError>
    ensures ascend { IfOk result (λ needed. IsStrictlyIncreasing needed.items) }
    ensures has { IfOk result (λ needed. HasNextOf (size_of heap.now) (facts_of heap.now) some.now needed.items) }
{
    let classes = ClassNames::of(alloc, heap)?;
    let mut needed = Vec::new(alloc);
    for id in some {
        push_next(alloc, heap, &classes, *id, &mut needed)?;
    }
    sort_once(&mut needed)?;
    Ok(needed)
}
