//! Names and classes that are called by a word.

ghost use Rattle.std.specs.Prelude.{◌≡◌, true, false};
ghost use Rattle.hprof_heap.specs.HeapFacts.{facts_of};
ghost use Rattle.hprof_heap.specs.Names.{HasName};
ghost use Rattle.hprof_naming.specs.Called.{IsCalled};
ghost use Rattle.hprof_naming.specs.ClassNames.{AreClassNames};

use crate::class_names::ClassNames;
use hprof_heap::{Heap, find_name, holds_of_heap};

/// Returns whether a name has exactly these bytes.
pub fn is_named(heap: &Heap, name: u64, word: &[u8]) -> bool
    ensures yes { result ≡ true → HasName (facts_of heap.now) name word.now }
    ensures no { result ≡ false → ¬ (HasName (facts_of heap.now) name word.now) }
{
    match find_name(heap, name) {
        Some(bytes) => bytes == word,
        None => false,
    }
}

/// Returns whether a class has a name of exactly these bytes, by its load with the least serial number. `names` are those of the heap's
/// classes.
pub fn is_called(heap: &Heap, names: &ClassNames, class: u64, word: &[u8]) -> bool
    ensures yes { AreClassNames (facts_of heap.now) names.now → result ≡ true → IsCalled (facts_of heap.now) class word.now }
    ensures no { AreClassNames (facts_of heap.now) names.now → result ≡ false → ¬ (IsCalled (facts_of heap.now) class word.now) }
{
    holds_of_heap(heap);
    match names.name_of(class) {
        Some(name) => is_named(heap, name, word),
        None => false,
    }
}
