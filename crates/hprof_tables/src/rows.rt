//! An iterator over the rows of a table.

ghost use Rattle.hprof_tables.specs.PlacedRows.{AreWithin, AreWithin-prop};
ghost use Rattle.hprof_tables.specs.SortedTable.{entries_left};

use crate::entries::Entries;

/// An iterator over the rows of a table with their keys, in order of key.
#[derive(Drop)]
pub struct Rows<'a, V> {
    /// The keys that are still to come, with the places of their rows.
    entries: Entries<'a, usize>,
    /// The rows.
    rows: &'a [V],
    ghost sound: { AreWithin rows.now (entries_left entries) } by { AreWithin-prop rows.now (entries_left entries) },
}

impl<'a, V> Rows<'a, V> {
    ghost use Rattle.std.specs.Prelude.{◌≡◌};
    ghost use Rattle.hprof_tables.specs.PlacedRows.{rows_at};
    ghost use Rattle.hprof_tables.specs.Rows.{rows_left};

    /// Returns the rows at the places of these entries.
    pub(crate) fn new(entries: Entries<'a, usize>, rows: &'a [V]) -> Self
        requires { AreWithin rows.now (entries_left entries) }
        ensures { rows_left result ≡ rows_at rows.entry.now (entries_left entries.entry) }
    {
        Rows { entries, rows }
    }
}

impl<'a, V> Iterator for Rows<'a, V> {
    ghost use Rattle.std.specs.Iterator.{YieldsFirstBy, item_count};
    ghost use Rattle.hprof_tables.specs.Rows.{rows_left};

    type Item = (u64, &'a V);

    ghost next_gives = { YieldsFirstBy (λ row. (row.0, row.1.now)) rows_left };

    ghost remaining = { item_count rows_left };

    #[inline(always)]
    fn next(&mut self) -> Option<(u64, &'a V)> {
        let (key, place) = self.entries.next()?;
        Some((key, &self.rows[*place]))
    }
}
