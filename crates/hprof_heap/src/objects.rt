//! Looking up instances and arrays in a heap.

ghost use Rattle.std.specs.Prelude.{◌≡◌, ℕ, IfNone, IfSome, find};
ghost use Rattle.std.specs.Option.{option_map};
ghost use Rattle.hprof_values.specs.declared.ids.IdSize.{IdSize};
ghost use Rattle.hprof_items.specs.FactValue.{ListsHave, value_of};
ghost use Rattle.hprof_rows.specs.declared.key.Key.TheVariants as keys;
ghost use Rattle.hprof_rows.specs.Key.{has_key};
ghost use Rattle.hprof_heap.specs.HeapFacts.{facts_of, size_of};
ghost use Rattle.hprof_heap.specs.Objects.{IsObject};
ghost use Rattle.hprof_heap.specs.ObjectDump.{ElementsHave, AnswersObject, fact_of_object};

use crate::heap::Heap;
use crate::heap_facts::holds_of_heap;
use crate::object_dump::ObjectDump;
use hprof_items::Fact;
use hprof_tables::Cursor;

/// Returns the fact with the key of an object.
#[inline(always)]
fn object_fact<'a>(heap: &'a Heap, object: u64, near: &mut Cursor) -> Option<Fact<'a>>
    ensures value { option_map value_of result ≡ find (has_key (keys.Object object)) (facts_of heap.now) }
    ensures lists { IfSome result (ListsHave (size_of heap.now)) }
{
    heap.object_near(object, near)
}

/// Returns the dump of a fact, or `None` if the fact is neither an instance nor an array.
#[inline(always)]
pub fn to_object_dump<'a>(fact: &Fact<'a>) -> Option<ObjectDump<'a>>
    ensures found { IfSome result (λ dump. fact_of_object dump ≡ value_of fact.now) }
    ensures none { IfNone result ((object : ℕ) → IsObject object (value_of fact.now) → ⊥) }
    // The size of its list stays.
    ensures lists { IfSome result (λ dump. (ids : IdSize) → ListsHave ids fact.now → ElementsHave ids dump) }
{
    match *fact {
        Fact::Instance {
            id,
            trace,
            class,
            bytes,
        } => Some(ObjectDump::Instance {
            id,
            trace,
            class,
            bytes,
        }),
        Fact::ObjArray {
            id,
            trace,
            class,
            elements,
        } => Some(ObjectDump::ObjArray {
            id,
            trace,
            class,
            elements,
        }),
        Fact::PrimArray {
            id,
            trace,
            elem,
            bytes,
        } => Some(ObjectDump::PrimArray {
            id,
            trace,
            elem,
            bytes,
        }),
        _ => None,
    }
}

/// Returns the dump of an object, or `None` if the heap has none.
pub fn find_object(heap: &Heap, object: u64) -> Option<ObjectDump<'_>>
    ensures { AnswersObject (size_of heap.now) (facts_of heap.now) object result }
{
    find_object_near(heap, object, &mut Cursor::start())
}

/// Returns the dump of an object, as [`find_object`] does, looking near a place first.
///
/// `near` is set to the place of the dump, so objects that are asked for in order of their identifiers are found faster. The answer is the
/// same for every `near`.
#[inline(always)]
pub fn find_object_near<'a>(
    heap: &'a Heap,
    object: u64,
    near: &mut Cursor,
) -> Option<ObjectDump<'a>>
    ensures { AnswersObject (size_of heap.now) (facts_of heap.now) object result }
{
    holds_of_heap(heap);
    let fact = object_fact(heap, object, near)?;
    let Some(dump) = to_object_dump(&fact) else {
        // A fact with the key of an object is its dump.
        unreachable!();
    };
    Some(dump)
}
