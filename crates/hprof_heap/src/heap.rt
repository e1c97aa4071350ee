//! A heap: an identifier size, a time, and facts that agree.

ghost use Rattle.std.specs.Prelude.{◌≡◌, [], length, find, min, ◌↔◌, IfSome, IsTrue};
ghost use Rattle.std.specs.Option.{option_map};
ghost use Rattle.hprof_items.specs.FactValue.{Name, Load, Frame, Trace, ListsHave, value_of};
ghost use Rattle.hprof_rows.specs.declared.key.Key.TheVariants as keys;
ghost use Rattle.hprof_rows.specs.Key.{has_key};
ghost use Rattle.hprof_rows.specs.HeapRows.{AreHeap, AreHeap-prop, HaveSameRecords, HaveSameSubs};
ghost use Rattle.hprof_rows.specs.HeapValue.{IsHeap};
ghost use Rattle.hprof_rows.specs.Order.{IsCanonicalOrder};
ghost use Rattle.hprof_heap.specs.Tables.{rows_in_tables};

use crate::tables::Tables;
use hprof_byte_tables::BytesTable;
use hprof_items::Fact;
use hprof_rows::{Facts, RootSet, SubRows, Table, decode_class, decode_object, decode_trace};
use hprof_tables::{Cursor, Relation};
use hprof_values::IdSize;
use std::alloc::Global;

mod copying;
mod differing;
mod joining;
mod listing;
mod stating;

/// An identifier size, a time, and a set of facts in which each key has one content.
#[derive(Drop)]
pub struct Heap {
    tables: Tables,
    ghost sound: { AreHeap (rows_in_tables tables) } by { AreHeap-prop _ },
}

impl Heap {
    ghost use Rattle.hprof_rows.specs.Tables.{facts_of_table};
    ghost use Rattle.hprof_heap.specs.Heap.{heap_of, rows_in};
    ghost use Rattle.hprof_heap.specs.ClassName.{NamesClass};
    ghost use Rattle.hprof_rows.specs.FactsLeft.{facts_left, facts_ids};
    ghost use Rattle.hprof_rows.specs.SubFacts.{sub_facts};
    ghost use Rattle.hprof_rows.specs.SubRows.{subs_left, subs_ids};

    /// Returns a heap without facts. Allocates nothing.
    pub(crate) fn new(alloc: Global, ids: IdSize, millis: u64) -> Self
        ensures { heap_of result ≡ record { ids = ids; millis = millis; facts = [] } }
    {
        Heap {
            tables: Tables {
                ids,
                millis,
                names: BytesTable::new(alloc),
                loads: Relation::new(alloc),
                unloads: Relation::new(alloc),
                frames: Relation::new(alloc),
                traces: BytesTable::new(alloc),
                starts: Relation::new(alloc),
                ends: Relation::new(alloc),
                roots: RootSet::new(alloc),
                classes: BytesTable::new(alloc),
                objects: BytesTable::new(alloc),
            },
        }
    }

    /// Sets the time to the lesser of its time and another.
    pub(crate) fn keep_earlier(&mut self, millis: u64)
        ensures { heap_of self.new ≡ record (heap_of self.old) { millis = min (heap_of self.old).millis millis } }
    {
        self.tables.millis = self.tables.millis.min(millis);
    }

    /// Returns the identifier size.
    pub fn ids(&self) -> IdSize
        ensures value { result ≡ (heap_of self.now).ids }
        // What every heap keeps: its facts have spellings, and stand in order, each key once.
        ensures sound { IsHeap (heap_of self.now) }
    {
        self.tables.ids
    }

    /// Returns the time: milliseconds since 1 January 1970, 0:00 GMT.
    pub fn millis(&self) -> u64
        ensures { result ≡ (heap_of self.now).millis }
    {
        self.tables.millis
    }

    /// Returns the name with this identifier.
    pub fn name(&self, id: u64) -> Option<Fact<'_>>
        ensures { option_map value_of result ≡ find (has_key (keys.Name id)) (heap_of self.now).facts }
    {
        let text = self.tables.names.get(id)?;
        Some(Fact::Name { id, text })
    }

    /// Returns the class that was loaded with this serial number.
    pub fn load(&self, serial: u32) -> Option<Fact<'_>>
        ensures { option_map value_of result ≡ find (has_key (keys.Load serial)) (heap_of self.now).facts }
    {
        let row = self.tables.loads.get(serial as u64)?;
        Some(row.fact(serial))
    }

    /// Returns the identifier of a class's name, from the load with the least serial number.
    pub fn class_name(&self, class: u64) -> Option<u64>
        ensures { NamesClass (heap_of self.now).facts class result }
    {
        for (_serial, row) in self.tables.loads.rows() {
            if row.class == class {
                return Some(row.name);
            }
        }
        None
    }

    /// Returns the stack frame with this identifier.
    pub fn frame(&self, id: u64) -> Option<Fact<'_>>
        ensures { option_map value_of result ≡ find (has_key (keys.Frame id)) (heap_of self.now).facts }
    {
        let row = self.tables.frames.get(id)?;
        Some(row.fact(id))
    }

    /// Returns the thread that was started with this serial number.
    pub fn thread(&self, serial: u32) -> Option<Fact<'_>>
        ensures { option_map value_of result ≡ find (has_key (keys.Thread serial)) (heap_of self.now).facts }
    {
        let row = self.tables.starts.get(serial as u64)?;
        Some(row.fact(serial))
    }

    /// Returns the stack trace with this serial number.
    pub fn trace(&self, serial: u32) -> Option<Fact<'_>>
        ensures value { option_map value_of result ≡ find (has_key (keys.Trace serial)) (heap_of self.now).facts }
        ensures lists { IfSome result (ListsHave (heap_of self.now).ids) }
    {
        let kept = self.tables.traces.get(serial as u64)?;
        Some(decode_trace(serial, kept, self.tables.ids))
    }

    /// Returns the class dump with this identifier.
    #[inline(always)]
    pub fn class(&self, id: u64) -> Option<Fact<'_>>
        ensures value { option_map value_of result ≡ find (has_key (keys.Class id)) (heap_of self.now).facts }
        ensures lists { IfSome result (ListsHave (heap_of self.now).ids) }
    {
        self.class_near(id, &mut Cursor::start())
    }

    /// Returns the class dump with this identifier, looking near the cursor first, and moves the cursor there. Class dumps that are asked
    /// for in order of their identifiers are found faster.
    #[inline(always)]
    pub fn class_near(&self, id: u64, near: &mut Cursor) -> Option<Fact<'_>>
        ensures value { option_map value_of result ≡ find (has_key (keys.Class id)) (heap_of self.now).facts }
        ensures lists { IfSome result (ListsHave (heap_of self.now).ids) }
    {
        let bytes = self.tables.classes.get_near(id, near)?;
        Some(decode_class(bytes, self.tables.ids))
    }

    /// Returns the instance or the array with this identifier.
    #[inline(always)]
    pub fn object(&self, id: u64) -> Option<Fact<'_>>
        ensures value { option_map value_of result ≡ find (has_key (keys.Object id)) (heap_of self.now).facts }
        ensures lists { IfSome result (ListsHave (heap_of self.now).ids) }
    {
        self.object_near(id, &mut Cursor::start())
    }

    /// Returns the instance or the array with this identifier, looking near the cursor first, as `class_near` does.
    #[inline(always)]
    pub fn object_near(&self, id: u64, near: &mut Cursor) -> Option<Fact<'_>>
        ensures value { option_map value_of result ≡ find (has_key (keys.Object id)) (heap_of self.now).facts }
        ensures lists { IfSome result (ListsHave (heap_of self.now).ids) }
    {
        let kept = self.tables.objects.get_near(id, near)?;
        Some(decode_object(id, kept, self.tables.ids))
    }

    /// Returns an iterator over the facts of a table, in canonical order. The facts borrow from the heap.
    pub fn rows(&self, table: Table) -> Facts<'_>
        ensures all { facts_left result ≡ facts_of_table table (heap_of self.now).facts }
        ensures ordered { IsCanonicalOrder (facts_left result) }
        ensures ids { facts_ids result ≡ (heap_of self.now).ids }
    {
        Facts::new(self.tables.ids, self.tables.rows(table))
    }

    /// Returns an iterator over the sub-records, in canonical order, as the heap stores them.
    pub fn sub_rows(&self) -> SubRows<'_>
        ensures all { subs_left result ≡ sub_facts (heap_of self.now).facts }
        ensures ids { subs_ids result ≡ (heap_of self.now).ids }
    {
        SubRows::new(
            self.tables.ids,
            self.tables.roots.iter(),
            self.tables.classes.rows(),
            self.tables.objects.rows(),
        )
    }

    /// Returns whether both have the same facts of records.
    pub(crate) fn same_records(&self, other: &Heap) -> bool
        ensures { IsTrue result ↔ HaveSameRecords (rows_in self.now) (rows_in other.now) }
    {
        self.tables.names.same(&other.tables.names)
            && self.tables.loads.same(&other.tables.loads)
            && self.tables.unloads.same(&other.tables.unloads)
            && self.tables.frames.same(&other.tables.frames)
            && self.tables.traces.same(&other.tables.traces)
            && self.tables.starts.same(&other.tables.starts)
            && self.tables.ends.same(&other.tables.ends)
    }

    /// Returns whether both have the same facts of sub-records.
    pub(crate) fn same_subs(&self, other: &Heap) -> bool
        ensures { IsTrue result ↔ HaveSameSubs (rows_in self.now) (rows_in other.now) }
    {
        self.tables.roots.same(&other.tables.roots)
            && self.tables.classes.same(&other.tables.classes)
            && self.tables.objects.same(&other.tables.objects)
    }

    /// Returns the number of facts in a table.
    pub fn len(&self, table: Table) -> usize
        ensures { result ≡ length (facts_of_table table (heap_of self.now).facts) }
    {
        self.tables.len(table)
    }

    /// Returns the number of facts.
    pub fn count(&self) -> u128
        ensures { result ≡ length (heap_of self.now).facts }
    {
        self.tables.names.len() as u128
            + self.tables.loads.len() as u128
            + self.tables.unloads.len() as u128
            + self.tables.frames.len() as u128
            + self.tables.traces.len() as u128
            + self.tables.starts.len() as u128
            + self.tables.ends.len() as u128
            + self.tables.roots.len() as u128
            + self.tables.classes.len() as u128
            + self.tables.objects.len() as u128
    }
}
