//! Answers about a heap, with contracts in terms of its facts.

ghost use Rattle.std.specs.Prelude.{◌≡◌, ◌<◌, ◌^◌, length};
ghost use Rattle.hprof_rows.specs.declared.table.Table.TheVariants as tables;
ghost use Rattle.hprof_rows.specs.Conflict.{IsConsistent};
ghost use Rattle.hprof_rows.specs.Facts.{AllFit};
ghost use Rattle.hprof_rows.specs.FactsLeft.{facts_left, facts_ids};
ghost use Rattle.hprof_rows.specs.Order.{IsCanonicalOrder};
ghost use Rattle.hprof_rows.specs.Tables.{facts_of_table};
ghost use Rattle.hprof_heap.specs.ClassName.{NamesClass};
ghost use Rattle.hprof_heap.specs.HeapFacts.{facts_of, size_of};

use crate::heap::Heap;
use hprof_rows::{Facts, Table};
use hprof_values::IdSize;

/// Does nothing. Its contract states what is true of the facts of every heap.
#[inline(always)]
pub fn holds_of_heap(heap: &Heap)
    ensures fit { AllFit (size_of heap.now) (facts_of heap.now) }
    ensures ordered { IsCanonicalOrder (facts_of heap.now) }
    ensures agree { IsConsistent (facts_of heap.now) }
    // A number can count the objects.
    ensures few { length (facts_of_table tables.Objects (facts_of heap.now)) < 2 ^ 64 }
{
    heap.ids();
    heap.len(Table::Objects);
}

/// Returns the identifier size of a heap.
#[inline(always)]
pub fn id_size(heap: &Heap) -> IdSize
    ensures value { result ≡ size_of heap.now }
    // What holds of the facts of every heap.
    ensures fit { AllFit (size_of heap.now) (facts_of heap.now) }
    ensures ordered { IsCanonicalOrder (facts_of heap.now) }
    ensures agree { IsConsistent (facts_of heap.now) }
{
    heap.ids()
}

/// Returns an iterator over the facts of a table, in canonical order. The facts borrow from the heap.
pub fn table_facts(heap: &Heap, table: Table) -> Facts<'_>
    ensures all { facts_left result ≡ facts_of_table table (facts_of heap.now) }
    ensures ordered { IsCanonicalOrder (facts_left result) }
    ensures ids { facts_ids result ≡ size_of heap.now }
{
    heap.rows(table)
}

/// Returns the number of facts in a table.
pub fn table_len(heap: &Heap, table: Table) -> usize
    ensures { result ≡ length (facts_of_table table (facts_of heap.now)) }
{
    heap.len(table)
}

/// Returns the identifier of a class's name, from the load with the least serial number, or `None` if no load has the class.
pub fn class_name(heap: &Heap, class: u64) -> Option<u64>
    ensures { NamesClass (facts_of heap.now) class result }
{
    heap.class_name(class)
}
