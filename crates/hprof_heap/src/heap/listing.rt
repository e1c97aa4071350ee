//! Lists of what a heap has most of.

ghost use Rattle.std.specs.Prelude.{◌≡◌, ◌↔◌, [], IsTrue};
ghost use Rattle.hprof_rows.specs.FactsLeft.{facts_left, facts_ids};
ghost use Rattle.hprof_rows.specs.Order.{IsCanonicalOrder};
ghost use Rattle.hprof_rows.specs.Tables.{facts_of_table};
ghost use Rattle.hprof_rows.specs.declared.table.Table.TheVariants.{Names, Loads, Classes, Objects};
ghost use Rattle.hprof_heap.specs.Heap.{heap_of};

use crate::heap::Heap;
use hprof_rows::{Facts, Table};

impl Heap {
    /// Returns an iterator over the names, by identifier.
    pub fn names(&self) -> Facts<'_>
        ensures all { facts_left result ≡ facts_of_table Names (heap_of self.now).facts }
        ensures ordered { IsCanonicalOrder (facts_left result) }
        ensures ids { facts_ids result ≡ (heap_of self.now).ids }
    {
        self.rows(Table::Names)
    }

    /// Returns an iterator over the loaded classes, by serial number.
    pub fn loads(&self) -> Facts<'_>
        ensures all { facts_left result ≡ facts_of_table Loads (heap_of self.now).facts }
        ensures ordered { IsCanonicalOrder (facts_left result) }
        ensures ids { facts_ids result ≡ (heap_of self.now).ids }
    {
        self.rows(Table::Loads)
    }

    /// Returns an iterator over the class dumps, by identifier.
    pub fn classes(&self) -> Facts<'_>
        ensures all { facts_left result ≡ facts_of_table Classes (heap_of self.now).facts }
        ensures ordered { IsCanonicalOrder (facts_left result) }
        ensures ids { facts_ids result ≡ (heap_of self.now).ids }
    {
        self.rows(Table::Classes)
    }

    /// Returns an iterator over the instances and arrays, by identifier.
    pub fn objects(&self) -> Facts<'_>
        ensures all { facts_left result ≡ facts_of_table Objects (heap_of self.now).facts }
        ensures ordered { IsCanonicalOrder (facts_left result) }
        ensures ids { facts_ids result ≡ (heap_of self.now).ids }
    {
        self.rows(Table::Objects)
    }

    /// Returns whether the heap has no fact.
    pub fn is_empty(&self) -> bool
        ensures { IsTrue result ↔ ((heap_of self.now).facts ≡ []) }
    {
        self.count() == 0
    }
}
