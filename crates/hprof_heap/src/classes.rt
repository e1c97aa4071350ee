//! Looking up class dumps in a heap.

ghost use Rattle.std.specs.Prelude.{◌≡◌, ◌≢◌, IfNone, IfSome, find};
ghost use Rattle.std.specs.Option.{option_map};
ghost use Rattle.hprof_values.specs.declared.ids.IdSize.{IdSize};
ghost use Rattle.hprof_items.specs.FactValue.{ListsHave, value_of};
ghost use Rattle.hprof_rows.specs.declared.key.Key.TheVariants as keys;
ghost use Rattle.hprof_rows.specs.Key.{has_key};
ghost use Rattle.hprof_heap.specs.HeapFacts.{facts_of, size_of};
ghost use Rattle.hprof_heap.specs.Classes.{ClassValue, fact_of_class};
ghost use Rattle.hprof_heap.specs.ClassDump.{ClassListsHave, AnswersClass, class_value};

use crate::class_dump::ClassDump;
use crate::heap::Heap;
use crate::heap_facts::holds_of_heap;
use hprof_items::Fact;
use hprof_tables::Cursor;

/// Returns the fact with the key of a class dump.
#[inline(always)]
fn class_fact<'a>(heap: &'a Heap, class: u64, near: &mut Cursor) -> Option<Fact<'a>>
    ensures value { option_map value_of result ≡ find (has_key (keys.Class class)) (facts_of heap.now) }
    ensures lists { IfSome result (ListsHave (size_of heap.now)) }
{
    heap.class_near(class, near)
}

/// Returns the dump of a fact, or `None` if the fact is no class dump.
#[inline(always)]
pub fn to_class_dump<'a>(fact: &Fact<'a>) -> Option<ClassDump<'a>>
    ensures found { IfSome result (λ dump. fact_of_class (class_value dump) ≡ value_of fact.now) }
    ensures none { IfNone result ((dump : ClassValue) → fact_of_class dump ≢ value_of fact.now) }
    // The sizes of its lists stay.
    ensures lists { IfSome result (λ dump. (ids : IdSize) → ListsHave ids fact.now → ClassListsHave ids dump) }
{
    match *fact {
        Fact::Class {
            id,
            trace,
            parent,
            loader,
            signers,
            domain,
            reserved1,
            reserved2,
            size,
            constants,
            statics,
            fields,
        } => Some(ClassDump {
            id,
            trace,
            parent,
            loader,
            signers,
            domain,
            reserved1,
            reserved2,
            size,
            constants,
            statics,
            fields,
        }),
        _ => None,
    }
}

/// Returns the dump of a class, or `None` if the heap has none.
pub fn find_class(heap: &Heap, class: u64) -> Option<ClassDump<'_>>
    ensures { AnswersClass (size_of heap.now) (facts_of heap.now) class result }
{
    find_class_near(heap, class, &mut Cursor::start())
}

/// Returns the dump of a class, as [`find_class`] does, looking near a place first.
///
/// `near` is set to the place of the dump, so classes that are asked for in order of their identifiers are found faster. The answer is the
/// same for every `near`.
#[inline(always)]
pub fn find_class_near<'a>(heap: &'a Heap, class: u64, near: &mut Cursor) -> Option<ClassDump<'a>>
    ensures { AnswersClass (size_of heap.now) (facts_of heap.now) class result }
{
    holds_of_heap(heap);
    let fact = class_fact(heap, class, near)?;
    let Some(dump) = to_class_dump(&fact) else {
        // A fact with the key of a class is its dump.
        unreachable!();
    };
    Some(dump)
}
