//! What the names of classes and fields say of references: java.lang.ref of the JDK.

ghost use Rattle.std.specs.Prelude.{◌≡◌, ◌↔◌, ℕ, List, Some, IsTrue, codes};
ghost use Rattle.std.specs.Option.{option_copied};
ghost use Rattle.hprof_heap.specs.HeapFacts.{facts_of};
ghost use Rattle.hprof_heap.specs.Names.{HasName};
ghost use Rattle.hprof_naming.specs.ClassNames.{AreClassNames};
ghost use Rattle.hprof_naming.specs.Called.{IsCalled};
ghost use Rattle.hprof_weak.specs.Weak.{IsClearing};

use hprof_heap::{Heap, find_name, holds_of_heap};
use hprof_naming::ClassNames;

/// Returns the bytes of a class's name, or `None` if no load has the class, or its name has no record. `names` are those of the heap.
fn label_of<'a>(heap: &'a Heap, names: &ClassNames, class: u64) -> Option<&'a [u8]>
    requires { AreClassNames (facts_of heap.now) names.now }
    ensures { (label : List ℕ) → IsCalled (facts_of heap.now) class label ↔ (option_copied result ≡ Some label) }
{
    holds_of_heap(heap);
    let name = names.name_of(class)?;
    find_name(heap, name)
}

/// Returns whether there is a label, of exactly these bytes.
fn is_label(label: Option<&[u8]>, word: &[u8]) -> bool
    ensures { IsTrue result ↔ (option_copied label.entry ≡ Some word.now) }
{
    match label {
        Some(bytes) => bytes == word,
        None => false,
    }
}

/// Returns whether a class is `java.lang.ref.Reference`, by its name.
pub(crate) fn is_reference(heap: &Heap, names: &ClassNames, class: u64) -> bool
    requires { AreClassNames (facts_of heap.now) names.now }
    ensures { IsTrue result ↔ IsCalled (facts_of heap.now) class (codes "java/lang/ref/Reference") }
{
    is_label(label_of(heap, names, class), b"java/lang/ref/Reference")
}

/// Returns whether a class is one of those whose referents are cleared, by its name.
pub(crate) fn is_clearing(heap: &Heap, names: &ClassNames, class: u64) -> bool
    requires { AreClassNames (facts_of heap.now) names.now }
    ensures { IsTrue result ↔ IsClearing (facts_of heap.now) class }
{
    let label = label_of(heap, names, class);
    is_label(label, b"java/lang/ref/SoftReference")
        || is_label(label, b"java/lang/ref/WeakReference")
        || is_label(label, b"java/lang/ref/PhantomReference")
}

/// Returns whether a name is `referent`.
pub(crate) fn names_referent(heap: &Heap, name: u64) -> bool
    ensures { IsTrue result ↔ HasName (facts_of heap.now) name (codes "referent") }
{
    is_label(find_name(heap, name), b"referent")
}
