//! Looking up names in a heap.

ghost use Rattle.std.specs.Prelude.{◌≡◌, List, ℕ, IfNone, IfSome, find};
ghost use Rattle.std.specs.Option.{option_map};
ghost use Rattle.hprof_items.specs.FactValue.{value_of};
ghost use Rattle.hprof_rows.specs.declared.key.Key.TheVariants as keys;
ghost use Rattle.hprof_rows.specs.Key.{has_key};
ghost use Rattle.hprof_heap.specs.HeapFacts.{facts_of};
ghost use Rattle.hprof_heap.specs.Names.{HasName, HasNoName};

use crate::heap::Heap;
use crate::heap_facts::holds_of_heap;
use hprof_items::Fact;

/// Returns the fact with the key of a name.
fn name_fact(heap: &Heap, name: u64) -> Option<Fact<'_>>
    ensures { option_map value_of result ≡ find (has_key (keys.Name name)) (facts_of heap.now) }
{
    heap.name(name)
}

/// Returns the bytes of a name, or `None` if the heap does not have the name.
pub fn find_name(heap: &Heap, name: u64) -> Option<&[u8]>
    ensures found { IfSome result (λ bytes. HasName (facts_of heap.now) name bytes.now) }
    // They are the only ones.
    ensures only { IfSome result (λ bytes. (other : List ℕ) → HasName (facts_of heap.now) name other → bytes.now ≡ other) }
    ensures none { IfNone result (HasNoName (facts_of heap.now) name) }
{
    holds_of_heap(heap);
    match name_fact(heap, name)? {
        Fact::Name { text, .. } => Some(text),
        // A fact with the key of a name is one.
        _ => unreachable!(),
    }
}
