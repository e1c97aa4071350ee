//! Comparing a table with the same table of another heap.

ghost use Rattle.hprof_heap.specs.Tables.{Differs, rows_in_tables};

use super::Tables;
use hprof_rows::Table;

impl Tables {
    /// Returns the least key whose contents differ between two tables. Roots have no keys.
    pub(crate) fn first_difference(&self, table: Table, other: &Tables) -> Option<u64>
        ensures { Differs table (rows_in_tables self.now) (rows_in_tables other.now) result }
    {
        match table {
            Table::Names => self.names.first_difference(&other.names),
            Table::Loads => self.loads.first_difference(&other.loads),
            Table::Unloads => self.unloads.first_difference(&other.unloads),
            Table::Frames => self.frames.first_difference(&other.frames),
            Table::Traces => self.traces.first_difference(&other.traces),
            Table::Starts => self.starts.first_difference(&other.starts),
            Table::Ends => self.ends.first_difference(&other.ends),
            Table::Roots => None,
            Table::Classes => self.classes.first_difference(&other.classes),
            Table::Objects => self.objects.first_difference(&other.objects),
        }
    }
}
