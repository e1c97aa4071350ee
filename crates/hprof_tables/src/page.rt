//! A page of a table: all rows whose keys are in one range.

ghost use Rattle.std.specs.Prelude.{◌≡◌, ◌+◌, ◌↔◌, ◌++◌, ◌<◌, ◌≤◌, ◌^◌, ◌⊎◌, ℕ, List, []};
ghost use Rattle.std.specs.Prelude.{length, take, drop, true, false, IsTrue, IfOk, IfErr};
ghost use Rattle.std.specs.Prelude.{OnOk, OnErr, slice_index_or, vec_len, vec_capacity};
ghost use Rattle.std.specs.BTreeMap.{insert_entry};
ghost use Rattle.std.specs.Option.{option_copied};
ghost use Rattle.std.specs.Ordering.{nat_cmp};
ghost use Rattle.hprof_tables.specs.PageRows.{GoesTo, IsPage, IsPage-prop};
ghost use Rattle.hprof_tables.specs.SortedRows.{AreKeys, IsAscending, row_at};

use std::alloc::{AllocError, Global};
use std::mem;

/// A page with this many rows is split before a row is inserted between others, which moves those after it.
const MOST_AMONG: usize = 64;

/// A page with this many rows is split before a row is appended, which moves none.
const MOST: usize = 1024;

/// The number of rows that capacity is taken for at once.
const SPARE: usize = 16;

/// Where a page is split: before the row at this place, and at this key.
#[derive(Clone, Copy)]
pub(crate) struct Cut {
    pub(crate) place: usize,
    pub(crate) key: u64,
}

/// All rows whose keys are in one range, in order of key.
#[derive(Drop)]
pub(crate) struct Page<V> {
    pub(crate) from: u64,
    pub(crate) to: u64,
    pub(crate) rows: Vec<(u64, V)>,
    ghost sound: { IsPage from to rows.items } by { IsPage-prop from to rows.items },
}

/// Returns the key of the last row, or 0 if the page is empty.
#[inline(always)]
fn last_key<V>(rows: &[(u64, V)]) -> u64
    requires { IsAscending rows.now }
    ensures { AreKeys (λ key. key ≤ result) rows.now }
{
    match rows.last() {
        None => 0,
        Some(row) => row.0,
    }
}

impl<V> Page<V> {
    ghost use Rattle.hprof_tables.specs.Page.{CutsFor, HasRoom, IsCutAt};

    /// Returns a page for all keys, with these rows.
    pub(crate) fn of(rows: Vec<(u64, V)>) -> Self
        requires { IsAscending rows.items }
        ensures from { result.from ≡ 0 }
        ensures to { result.to + 1 ≡ 2 ^ 64 }
        ensures rows { result.rows.items ≡ rows.items }
    {
        // The last key is a `u64`, and no other key is above it.
        let _last = last_key(&rows);
        Page {
            from: 0,
            to: u64::MAX,
            rows,
        }
    }

    /// Returns whether the key is in the page's range.
    #[inline(always)]
    pub(crate) fn has(&self, key: u64) -> bool
        ensures { IsTrue result ↔ ((self.now.from ≤ key) × (key ≤ self.now.to)) }
    {
        self.from <= key && key <= self.to
    }

    /// Returns whether all rows have lesser keys.
    #[inline(always)]
    fn ends_below(&self, key: u64) -> bool
        ensures { result ≡ true → AreKeys (λ other. other < key) self.now.rows.items }
    {
        self.rows.is_empty() || last_key(&self.rows) < key
    }

    /// Returns the place of the row under a key, or the place where it would be inserted.
    #[inline(always)]
    pub(crate) fn place_of(&self, key: u64) -> Result<usize, usize>
        ensures there { IfOk result (λ place. (place < length self.now.rows.items)
            × ((row : ℕ × V) → (slice_index_or self.now.rows.items place row).0 ≡ key)) }
        ensures new { IfErr result (λ place. GoesTo key place self.now.rows.items) }
    {
        if self.ends_below(key) {
            return Err(self.rows.len());
        }
        self.rows.binary_search_by_key(&key, |row| row.0)
    }

    /// Returns the row under a key.
    #[inline(always)]
    pub(crate) fn get(&self, key: u64) -> Option<&V>
        ensures { option_copied result ≡ row_at key self.now.rows.items }
    {
        match self.place_of(key) {
            Ok(place) => Some(&self.rows[place].1),
            Err(_) => None,
        }
    }

    /// Guesses the place of a key, or the place where it would be inserted. Starts at `near`, and doubles its steps, then searches the last
    /// step by binary search. Searches from the first row if the key lies before `near`.
    #[inline(always)]
    fn guess(&self, key: u64, near: usize) -> usize {
        let rows = self.rows.as_slice();
        let mut from = near.min(rows.len());
        if from > 0 && key <= rows[from - 1].0 {
            from = 0;
        }
        let mut step = 1;
        while step < rows.len() - from && rows[from + step].0 < key {
            from += step;
            step *= 2;
        }
        let to = rows.len().min(from.saturating_add(step).saturating_add(1));
        from + rows[from..to].partition_point(|row| row.0 < key)
    }

    /// Returns whether the key is greater than the key before a place.
    #[inline(always)]
    fn lies_behind(&self, key: u64, place: usize) -> bool
        requires { place < length self.now.rows.items }
        ensures { result ≡ true → (other : ℕ) (row : ℕ × V) → other < place → (slice_index_or self.now.rows.items other row).0 < key }
    {
        match place.checked_sub(1) {
            None => true,
            Some(before) => self.rows[before].0 < key,
        }
    }

    /// Returns the row under a key, as `get` does. Looks near a place first, and sets `near` to the place.
    #[inline(always)]
    pub(crate) fn get_near(&self, key: u64, near: &mut usize) -> Option<&V>
        ensures { option_copied result ≡ row_at key self.now.rows.items }
    {
        let place = self.guess(key, *near);
        *near = place;
        let Some(row) = self.rows.get(place) else {
            return self.get(key);
        };
        if row.0 == key {
            return Some(&row.1);
        }
        if key < row.0 && self.lies_behind(key, place) {
            return None;
        }
        self.get(key)
    }

    /// Returns whether a row with this key can be appended without a split, a search or an allocation.
    #[inline(always)]
    pub(crate) fn has_end_for(&self, key: u64) -> bool
        ensures goes { result ≡ true → GoesTo key (length self.now.rows.items) self.now.rows.items }
        ensures room { result ≡ true → HasRoom self.now }
    {
        let len = self.rows.len();
        len < MOST && len < self.rows.capacity() && self.ends_below(key)
    }

    /// Returns whether a row can be inserted at a place without a split.
    #[inline(always)]
    pub(crate) fn takes(&self, place: usize) -> bool
        ensures { result ≡ false → (64 ≤ length self.now.rows.items)
            × ((1024 ≤ length self.now.rows.items) ⊎ (place ≡ length self.now.rows.items → ⊥)) }
    {
        let len = self.rows.len();
        len < MOST_AMONG || (place == len && len < MOST)
    }

    /// Makes room for one more row.
    #[inline(always)]
    pub(crate) fn make_room(&mut self) -> Result<(), AllocError>
        ensures from { self.new.from ≡ self.old.from }
        ensures to { self.new.to ≡ self.old.to }
        ensures rows { self.new.rows.items ≡ self.old.rows.items }
        ensures ok { OnOk result (HasRoom self.new) }
        ensures full { OnErr result (vec_capacity self.old.rows ≤ vec_len self.old.rows) }
    {
        if self.rows.len() < self.rows.capacity() {
            return Ok(());
        }
        if self.rows.len() < MOST_AMONG {
            return self.rows.reserve_exact(SPARE);
        }
        self.rows.reserve(1)
    }

    /// Inserts a row at its place. There is room for it.
    #[inline(always)]
    pub(crate) fn put(&mut self, place: usize, key: u64, row: V)
    where
        V: Drop,
        requires has { (self.old.from ≤ key) × (key ≤ self.old.to) }
        requires goes { GoesTo key place self.old.rows.items }
        requires room { HasRoom self.old }
        ensures from { self.new.from ≡ self.old.from }
        ensures to { self.new.to ≡ self.old.to }
        ensures rows { self.new.rows.items ≡ insert_entry nat_cmp self.old.rows.items key row }
    {
        if place == self.rows.len() {
            self.rows.push_reserved((key, row));
            return;
        }
        let Ok(()) = self.rows.insert(place, (key, row)) else {
            unreachable!()
        };
    }

    /// Returns where the page is split for a row that is inserted at a place. A row before or after all others splits there, so that
    /// ascending or descending keys leave full pages; any other row splits the page in the middle.
    pub(crate) fn cut_for(&self, key: u64, place: usize) -> Cut
        requires has { (self.now.from ≤ key) × (key ≤ self.now.to) }
        requires goes { GoesTo key place self.now.rows.items }
        requires some { 0 < length self.now.rows.items }
        ensures { CutsFor self.now result }
    {
        if place == self.rows.len() {
            return Cut { place, key };
        }
        let half = if place == 0 { 0 } else { self.rows.len() / 2 };
        let key = self.rows[half].0;
        Cut { place: half, key }
    }

    /// Splits the page. It keeps the keys and rows before the split, and the new page has the others.
    pub(crate) fn cut(&mut self, cut: Cut) -> Result<Self, AllocError>
        requires { CutsFor self.old cut }
        ensures ok { IfOk result (λ next. IsCutAt cut.key self.old self.new next) }
        ensures err { OnErr result (self.new ≡ self.old) }
    {
        let rows = self.rows.split_off(cut.place)?;
        self.rows.shrink_to(cut.place + SPARE);
        let next = Page {
            from: cut.key,
            to: self.to,
            rows,
        };
        self.to = cut.key - 1;
        Ok(next)
    }

    /// Takes all rows out of the page.
    pub(crate) fn take_rows(&mut self, alloc: Global) -> Vec<(u64, V)>
    where
        V: Drop,
        ensures from { self.new.from ≡ self.old.from }
        ensures to { self.new.to ≡ self.old.to }
        ensures rows { result.items ≡ self.old.rows.items }
        ensures none { self.new.rows.items ≡ [] }
    {
        mem::replace(&mut self.rows, Vec::new(alloc))
    }
}
