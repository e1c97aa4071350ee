//! The printed forms of names and classes.

ghost use Rattle.std.specs.Prelude.{◌≡◌, ◌++◌, IfOk, codes, string_bytes};
ghost use Rattle.hprof_text.specs.Identifier.{id_digits};
ghost use Rattle.hprof_heap.specs.HeapFacts.{facts_of};
ghost use Rattle.hprof_naming.specs.Naming.{IsLabel, IsLabelOf, IsNameText, IsNaming, Naming};

use hprof_heap::{Heap, class_name, find_name, holds_of_heap};
use hprof_text::printed;
use std::alloc::{AllocError, Global};

/// Returns the printed form of a name that the heap does not have.
fn missing_name(alloc: Global, name: u64) -> Result<String, AllocError>
    ensures { IfOk result (λ text. string_bytes text ≡ codes "\\?" ++ id_digits name) }
{
    format!(in alloc; "\\?{name:x}")
}

/// Returns the printed form of a name: its bytes, escaped, or `\?` and its identifier if the heap does not have it. If memory runs out, the
/// answer is `AllocError`.
pub fn name_text(alloc: Global, heap: &Heap, name: u64) -> Result<String, AllocError>
    ensures form { IfOk result (λ text. IsNameText (facts_of heap.now) name (string_bytes text)) }
    ensures named { (naming : Naming) → IsNaming (facts_of heap.now) naming
        → IfOk result (λ text. string_bytes text ≡ naming.name_text name) }
{
    holds_of_heap(heap);
    match find_name(heap, name) {
        Some(bytes) => printed(alloc, bytes),
        None => missing_name(alloc, name),
    }
}

/// Returns the label of a class with this name: the printed form of the name, or `\?` if there is none. If memory runs out, the answer is
/// `AllocError`.
pub fn label_of(alloc: Global, heap: &Heap, name: Option<u64>) -> Result<String, AllocError>
    ensures { IfOk result (λ text. IsLabelOf (facts_of heap.now) name (string_bytes text)) }
{
    match name {
        Some(name) => name_text(alloc, heap, name),
        None => String::from_str(alloc, "\\?"),
    }
}

/// Returns the label of a class, by its name in the load with the least serial number. If memory runs out, the answer is `AllocError`.
pub fn class_label(alloc: Global, heap: &Heap, class: u64) -> Result<String, AllocError>
    ensures form { IfOk result (λ text. IsLabel (facts_of heap.now) class (string_bytes text)) }
    ensures named { (naming : Naming) → IsNaming (facts_of heap.now) naming
        → IfOk result (λ text. string_bytes text ≡ naming.label class) }
{
    holds_of_heap(heap);
    label_of(alloc, heap, class_name(heap, class))
}
