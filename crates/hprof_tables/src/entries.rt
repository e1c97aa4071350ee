//! An iterator over the rows of a table's pages.

ghost use Rattle.std.specs.Prelude.{◌≡◌, [], slice_get};
ghost use Rattle.hprof_tables.specs.Pages.{rows_in};

use crate::page::Page;
use std::collections::btree_map::Values;

/// Returns the rows of the page with this number.
#[inline(always)]
pub(crate) fn rows_of_page<V>(pages: &[Page<V>], number: usize) -> &[(u64, V)]
    ensures { result.now ≡ rows_in (slice_get pages.now number) }
{
    match pages.get(number) {
        Some(page) => page.rows.as_slice(),
        None => &[],
    }
}

/// An iterator over the rows of a table, in order of key.
#[derive(Drop)]
pub struct Entries<'a, V> {
    /// The rows of the current page that are still to come.
    pub(crate) rows: &'a [(u64, V)],
    /// The numbers of the pages after it.
    pub(crate) numbers: Values<'a, u64, usize>,
    pub(crate) pages: &'a [Page<V>],
}

impl<'a, V> Entries<'a, V> {
    ghost use Rattle.std.specs.Iterator.{YieldsFirstBy};
    ghost use Rattle.hprof_tables.specs.SortedTable.{entries_left};

    /// Goes to the next page that has a row, and takes its first row.
    #[inline(never)]
    fn next_of_page(&mut self) -> Option<(u64, &'a V)>
        requires { self.old.rows.now ≡ [] }
        ensures { YieldsFirstBy (λ row. (row.0, row.1.now)) entries_left self.old result self.new }
    {
        while let Some(number) = self.numbers.next() {
            if let Some((row, rest)) = rows_of_page(self.pages, *number).split_first() {
                self.rows = rest;
                return Some((row.0, &row.1));
            }
        }
        None
    }
}

impl<'a, V> Iterator for Entries<'a, V> {
    ghost use Rattle.std.specs.Iterator.{YieldsFirstBy, item_count};
    ghost use Rattle.hprof_tables.specs.SortedTable.{entries_left};

    type Item = (u64, &'a V);

    ghost next_gives = { YieldsFirstBy (λ row. (row.0, row.1.now)) entries_left };

    ghost remaining = { item_count entries_left };

    #[inline(always)]
    fn next(&mut self) -> Option<(u64, &'a V)> {
        let Some((row, rest)) = self.rows.split_first() else {
            return self.next_of_page();
        };
        self.rows = rest;
        Some((row.0, &row.1))
    }
}
