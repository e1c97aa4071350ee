//! Joining two heaps.

ghost use Rattle.std.specs.Prelude.{◌≡◌, ◌++◌, IfOk, OnErr};
ghost use Rattle.hprof_rows.specs.Conflict.{IsConsistent};
ghost use Rattle.hprof_rows.specs.Tables.{facts_of_table};
ghost use Rattle.hprof_heap.specs.Heap.{heap_of};
ghost use Rattle.hprof_heap.specs.Join.{IsBetween, JoinsInto, LacksFact, LacksFactIn, TakesFacts};

use super::Heap;
use crate::join_refusal::JoinRefusal;
use hprof_rows::Table;
use std::alloc::AllocError;

/// All tables, in order.
const TABLES: [Table; 10] = [
    Table::Names,
    Table::Loads,
    Table::Unloads,
    Table::Frames,
    Table::Traces,
    Table::Starts,
    Table::Ends,
    Table::Roots,
    Table::Classes,
    Table::Objects,
];

impl Heap {
    /// Adds the facts of one table of another heap. If memory runs out, the facts are unchanged.
    fn join_table(&mut self, table: Table, other: &Heap) -> Result<(), AllocError>
        requires ids { (heap_of self.old).ids ≡ (heap_of other.now).ids }
        requires agree { IsConsistent ((heap_of self.old).facts ++ (heap_of other.now).facts) }
        ensures ok { IfOk result (λ _. TakesFacts (heap_of self.old) (facts_of_table table (heap_of other.now).facts) (heap_of self.new)) }
        ensures err { OnErr result (heap_of self.new ≡ heap_of self.old) }
        ensures absent { OnErr result (LacksFactIn table (heap_of self.old) (heap_of other.now)) }
    {
        self.tables.join(table, &other.tables)
    }

    /// Adds the facts of another heap, table by table. If memory runs out, some of them have been added.
    fn join_tables(&mut self, other: &Heap) -> Result<(), AllocError>
        requires ids { (heap_of self.old).ids ≡ (heap_of other.now).ids }
        requires agree { IsConsistent ((heap_of self.old).facts ++ (heap_of other.now).facts) }
        ensures ok { IfOk result (λ _. TakesFacts (heap_of self.old) (heap_of other.now).facts (heap_of self.new)) }
        ensures err { OnErr result (IsBetween (heap_of self.old) (heap_of other.now) (heap_of self.new)) }
        ensures absent { OnErr result (LacksFact (heap_of self.new) (heap_of other.now)) }
    {
        for table in &TABLES {
            self.join_table(*table, other)?;
        }
        Ok(())
    }

    /// Adds the facts of another heap, and takes the earlier of both times. If the other heap has no new facts, nothing is allocated.
    ///
    /// - `IdSizes`: the heaps have two identifier sizes. The heap is unchanged.
    /// - `Conflict`: the least key whose facts differ. The heap is unchanged.
    /// - `OutOfMemory`: the heap has some of the other's facts, and the same join can be made again.
    pub fn join(&mut self, other: &Heap) -> Result<(), JoinRefusal>
        ensures { JoinsInto (heap_of self.old) (heap_of other.now) result (heap_of self.new) }
    {
        if self.tables.ids != other.tables.ids {
            return Err(JoinRefusal::IdSizes);
        }
        if let Some(key) = self.first_difference(other) {
            return Err(JoinRefusal::Conflict(key));
        }
        if self.join_tables(other).is_err() {
            return Err(JoinRefusal::OutOfMemory);
        }
        self.keep_earlier(other.tables.millis);
        Ok(())
    }
}
