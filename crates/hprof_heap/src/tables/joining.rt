//! Joining a table with the same table of another heap.

ghost use Rattle.hprof_rows.specs.EachTable.{JoinsTable};
ghost use Rattle.hprof_heap.specs.Tables.{rows_in_tables};

use super::Tables;
use hprof_rows::Table;
use std::alloc::AllocError;

impl Tables {
    /// Adds the rows of one table of another heap whose keys are new. If memory runs out, the rows are unchanged.
    pub(crate) fn join(&mut self, table: Table, other: &Tables) -> Result<(), AllocError>
        ensures { JoinsTable table (rows_in_tables self.old) (rows_in_tables other.now) result (rows_in_tables self.new) }
    {
        match table {
            Table::Names => self.names.join(&other.names),
            Table::Loads => self.loads.join(&other.loads),
            Table::Unloads => self.unloads.join(&other.unloads),
            Table::Frames => self.frames.join(&other.frames),
            Table::Traces => self.traces.join(&other.traces),
            Table::Starts => self.starts.join(&other.starts),
            Table::Ends => self.ends.join(&other.ends),
            Table::Roots => self.roots.join(&other.roots),
            Table::Classes => self.classes.join(&other.classes),
            Table::Objects => self.objects.join(&other.objects),
        }
    }
}
