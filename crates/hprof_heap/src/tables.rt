//! The ten tables of a heap.

ghost use Rattle.std.specs.Prelude.{◌≡◌};
ghost use Rattle.hprof_rows.specs.EachTable.{count_at};
ghost use Rattle.hprof_heap.specs.Tables.{rows_in_tables, AreRowsOf};

use hprof_byte_tables::BytesTable;
use hprof_rows::{FrameRow, KeyRow, LoadRow, RootSet, StartRow, Table, TableRows};
use hprof_tables::Relation;
use hprof_values::IdSize;

mod comparing;
mod copying;
mod joining;
mod stating;

/// The identifier size, the time and the tables of a heap. [`Heap`](crate::Heap) adds the invariant that they belong together.
#[derive(Drop)]
pub(crate) struct Tables {
    pub(crate) ids: IdSize,
    pub(crate) millis: u64,
    pub(crate) names: BytesTable,
    pub(crate) loads: Relation<LoadRow>,
    pub(crate) unloads: Relation<KeyRow>,
    pub(crate) frames: Relation<FrameRow>,
    pub(crate) traces: BytesTable,
    pub(crate) starts: Relation<StartRow>,
    pub(crate) ends: Relation<KeyRow>,
    pub(crate) roots: RootSet,
    pub(crate) classes: BytesTable,
    pub(crate) objects: BytesTable,
}

impl Tables {
    /// Returns the number of rows of a table.
    pub(crate) fn len(&self, table: Table) -> usize
        ensures { result ≡ count_at table (rows_in_tables self.now) }
    {
        match table {
            Table::Names => self.names.len(),
            Table::Loads => self.loads.len(),
            Table::Unloads => self.unloads.len(),
            Table::Frames => self.frames.len(),
            Table::Traces => self.traces.len(),
            Table::Starts => self.starts.len(),
            Table::Ends => self.ends.len(),
            Table::Roots => self.roots.len(),
            Table::Classes => self.classes.len(),
            Table::Objects => self.objects.len(),
        }
    }

    /// Returns the rows of a table.
    pub(crate) fn rows(&self, table: Table) -> TableRows<'_>
        ensures { AreRowsOf table (rows_in_tables self.now) result }
    {
        match table {
            Table::Names => TableRows::Names(self.names.rows()),
            Table::Loads => TableRows::Loads(self.loads.rows()),
            Table::Unloads => TableRows::Unloads(self.unloads.rows()),
            Table::Frames => TableRows::Frames(self.frames.rows()),
            Table::Traces => TableRows::Traces(self.traces.rows()),
            Table::Starts => TableRows::Starts(self.starts.rows()),
            Table::Ends => TableRows::Ends(self.ends.rows()),
            Table::Roots => TableRows::Roots(self.roots.iter()),
            Table::Classes => TableRows::Classes(self.classes.rows()),
            Table::Objects => TableRows::Objects(self.objects.rows()),
        }
    }
}
