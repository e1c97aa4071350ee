//! Tables of bytes by key: names, stack traces, classes and objects.

ghost use Rattle.std.specs.Prelude.{◌≡◌, ◌↔◌, ◌++◌, ◌+◌, ◌<◌, ◌≤◌, ◌⊎◌, List, [], length, IfOk, OnOk, OnErr, IsTrue, Some, None, vec_len};
ghost use Rattle.std.specs.Prelude.{◌^◌, ◌∷◌, drop, take, vec_capacity};
ghost use Rattle.std.specs.Option.{option_copied};
ghost use Rattle.std.specs.Ordering.{nat_cmp};
ghost use Rattle.std.specs.BTreeMap.{is_at};
ghost use Rattle.std.specs.Map.{lookup};
ghost use Rattle.hprof_byte_tables.specs.Spans.{AreSpansOf, AreSpansOf-prop, IsBehind, row_bytes, the_bytes};
ghost use Rattle.hprof_byte_tables.specs.StatedBytes.{bytes_of};
ghost use Rattle.hprof_tables.specs.Relation.{contents_of};
ghost use Rattle.hprof_tables.specs.SortedTable.{entries_of, entries_left};

use crate::framed_rows::{Front, Span, StatedBytes, append_rows};
use crate::lent_bytes::LentBytes;
use hprof_tables::{
    Cursor, Entries, SortedTable, Stated, first_difference, missing_rows, same_rows,
};
use std::alloc::{AllocError, Global};

/// Rows of bytes by key, in order of key. One vector holds the bytes of all rows, each after its length, in the order in which they came,
/// so a row needs no allocation of its own.
#[derive(Drop)]
pub struct BytesTable {
    rows: SortedTable<Span>,
    bytes: Vec<u8>,
    alloc: Global,
    ghost sound: { AreSpansOf bytes.items (entries_of rows) } by { AreSpansOf-prop bytes.items (entries_of rows) },
}

impl BytesTable {
    ghost use Rattle.hprof_tables.specs.Relation.{States};
    ghost use Rattle.hprof_byte_tables.specs.BytesTable.{byte_rows, byte_rows_left, LeavesBytes, PutsMissing, PutsNew};
    ghost use Rattle.hprof_byte_tables.specs.BytesTable.{HasNoRoom, MayNeedMemory};
    ghost use Rattle.hprof_tables.specs.SideBySide.{IsFirstDifference, LacksOne};
    ghost use Rattle.hprof_tables.specs.SortedRows.{IsAscending};
    ghost use Rattle.hprof_tables.specs.Union.{AreApart, AreUnion};

    /// Returns an empty table. Allocates nothing.
    pub fn new(alloc: Global) -> Self
        ensures none { byte_rows result ≡ [] }
        ensures no_room { HasNoRoom result }
    {
        BytesTable {
            rows: SortedTable::new(alloc),
            bytes: Vec::new(alloc),
            alloc,
        }
    }

    /// Returns a table with the same rows. If memory runs out, the answer is `AllocError`.
    pub fn copied(&self, alloc: Global) -> Result<Self, AllocError>
        ensures { IfOk result (λ table. byte_rows table ≡ byte_rows self.now) }
    {
        let bytes = Vec::from_slice(alloc, &self.bytes)?;
        let rows = self.rows.copied(alloc)?;
        Ok(BytesTable { rows, bytes, alloc })
    }

    /// States a row under a key, as [`BytesTable::state`] does.
    #[inline(always)]
    fn state_row(&mut self, key: u64, row: StatedBytes<'_>) -> Result<Stated, AllocError>
        ensures ok { IfOk result (λ stated. States the_bytes (byte_rows self.old) key (bytes_of row.entry) stated (byte_rows self.new)) }
        ensures err { OnErr result (byte_rows self.new ≡ byte_rows self.old) }
        ensures absent { OnErr result (lookup (is_at (nat_cmp key)) (byte_rows self.old) ≡ None) }
        ensures full { OnErr result (MayNeedMemory self.old key (bytes_of row.entry)) }
        ensures kept { IfOk result (λ stated. LeavesBytes stated self.old.bytes self.new.bytes) }
        ensures put { IfOk result (λ stated. PutsNew stated (bytes_of row.entry) self.old.bytes.items self.new.bytes.items) }
        ensures left { OnErr result (self.new.bytes.items ≡ self.old.bytes.items) }
    {
        match self.rows.visit(key, row, &mut self.bytes)? {
            None => Ok(Stated::New),
            Some(true) => Ok(Stated::Same),
            Some(false) => Ok(Stated::Differs),
        }
    }

    /// States bytes under a key. If the key is present, its row stays and nothing is allocated.
    #[inline(always)]
    pub fn state(&mut self, key: u64, bytes: &[u8]) -> Result<Stated, AllocError>
        ensures ok { IfOk result (λ stated. States the_bytes (byte_rows self.old) key bytes.now stated (byte_rows self.new)) }
        ensures err { OnErr result (byte_rows self.new ≡ byte_rows self.old) }
        ensures absent { OnErr result (lookup (is_at (nat_cmp key)) (byte_rows self.old) ≡ None) }
        ensures full { OnErr result (MayNeedMemory self.old key bytes.now) }
        ensures kept { IfOk result (λ stated. LeavesBytes stated self.old.bytes self.new.bytes) }
        ensures put { IfOk result (λ stated. PutsNew stated bytes.now self.old.bytes.items self.new.bytes.items) }
        ensures left { OnErr result (self.new.bytes.items ≡ self.old.bytes.items) }
    {
        self.state_row(
            key,
            StatedBytes {
                front: Front::Nothing,
                rest: bytes,
            },
        )
    }

    /// States bytes under a key, as [`BytesTable::state`] does. The first byte is given separately.
    #[inline(always)]
    pub fn state_split(&mut self, key: u64, first: u8, rest: &[u8]) -> Result<Stated, AllocError>
        ensures ok { IfOk result (λ stated. States the_bytes (byte_rows self.old) key (first ∷ rest.now) stated (byte_rows self.new)) }
        ensures err { OnErr result (byte_rows self.new ≡ byte_rows self.old) }
        ensures absent { OnErr result (lookup (is_at (nat_cmp key)) (byte_rows self.old) ≡ None) }
        ensures full { OnErr result (MayNeedMemory self.old key (first ∷ rest.now)) }
        ensures kept { IfOk result (λ stated. LeavesBytes stated self.old.bytes self.new.bytes) }
        ensures put { IfOk result (λ stated. PutsNew stated (first ∷ rest.now) self.old.bytes.items self.new.bytes.items) }
        ensures left { OnErr result (self.new.bytes.items ≡ self.old.bytes.items) }
    {
        self.state_row(
            key,
            StatedBytes {
                front: Front::One(first),
                rest,
            },
        )
    }

    /// States bytes under a key, as [`BytesTable::state`] does. The first four bytes are given separately.
    pub fn state_prefixed(
        &mut self,
        key: u64,
        front: [u8; 4],
        rest: &[u8],
    ) -> Result<Stated, AllocError>
        ensures ok { IfOk result (λ stated. States the_bytes (byte_rows self.old) key (front ++ rest.now) stated (byte_rows self.new)) }
        ensures err { OnErr result (byte_rows self.new ≡ byte_rows self.old) }
        ensures absent { OnErr result (lookup (is_at (nat_cmp key)) (byte_rows self.old) ≡ None) }
        ensures full { OnErr result (MayNeedMemory self.old key (front ++ rest.now)) }
        ensures kept { IfOk result (λ stated. LeavesBytes stated self.old.bytes self.new.bytes) }
        ensures put { IfOk result (λ stated. PutsNew stated (front ++ rest.now) self.old.bytes.items self.new.bytes.items) }
        ensures left { OnErr result (self.new.bytes.items ≡ self.old.bytes.items) }
    {
        self.state_row(
            key,
            StatedBytes {
                front: Front::Four(front),
                rest,
            },
        )
    }

    /// Returns the bytes under a key.
    pub fn get(&self, key: u64) -> Option<&[u8]>
        ensures { option_copied result ≡ lookup (is_at (nat_cmp key)) (byte_rows self.now) }
    {
        self.get_near(key, &mut Cursor::start())
    }

    /// Returns the bytes under a key, looking near the cursor first, and moves the cursor there. Keys that are asked for in order are found
    /// one after the other.
    #[inline(always)]
    pub fn get_near(&self, key: u64, near: &mut Cursor) -> Option<&[u8]>
        ensures { option_copied result ≡ lookup (is_at (nat_cmp key)) (byte_rows self.now) }
    {
        let span = self.rows.get_near(key, near)?;
        span.row_in(&self.bytes)
    }

    /// Returns the number of rows.
    pub fn len(&self) -> usize
        ensures { result ≡ length (byte_rows self.now) }
    {
        self.rows.len()
    }

    /// Returns whether there is no row.
    pub fn is_empty(&self) -> bool
        ensures { IsTrue result ↔ (byte_rows self.now ≡ []) }
    {
        self.len() == 0
    }

    /// Returns whether both tables have the same rows.
    pub fn same(&self, other: &Self) -> bool
        ensures { IsTrue result ↔ (byte_rows self.now ≡ byte_rows other.now) }
    {
        same_rows(self.rows(), other.rows())
    }

    /// Returns the least key whose bytes differ in the two tables.
    pub fn first_difference(&self, other: &Self) -> Option<u64>
        ensures { IsFirstDifference (byte_rows self.now) (byte_rows other.now) result }
    {
        first_difference(self.rows(), other.rows())
    }

    /// Adds rows whose keys are new. If there are none, nothing is allocated. If memory runs out, no row is added, but the vector may have
    /// grown by some of their bytes.
    fn take_rows(&mut self, lent: Vec<(u64, LentBytes<'_>)>) -> Result<(), AllocError>
        requires ascending { IsAscending (contents_of (λ row. row.0.now) lent.items) }
        requires apart { AreApart (byte_rows self.old) (contents_of (λ row. row.0.now) lent.items) }
        ensures ok { IfOk result (λ _. AreUnion (byte_rows self.old) (contents_of (λ row. row.0.now) lent.entry.items)
            (byte_rows self.new)) }
        ensures err { OnErr result (entries_of self.new.rows ≡ entries_of self.old.rows) }
        ensures behind { IsBehind self.old.bytes.items self.new.bytes.items }
        ensures put { IfOk result (λ _. self.new.bytes.items ≡ self.old.bytes.items ++ row_bytes
            (contents_of (λ row. row.0.now) lent.entry.items)) }
        ensures some { OnErr result (0 < length lent.entry.items) }
        ensures unchanged { IfOk result (λ _. length lent.entry.items ≡ 0 → self.new ≡ self.old) }
        ensures room { vec_capacity self.old.bytes ≤ vec_capacity self.new.bytes }
    {
        let fresh = append_rows(self.alloc, &mut self.bytes, lent)?;
        self.rows.merge(self.alloc, fresh)
    }

    /// Adds the rows of another table whose keys are new, in one pass over both. If no key is new, nothing is allocated. If memory runs
    /// out, the rows are unchanged.
    pub fn join(&mut self, other: &Self) -> Result<(), AllocError>
        ensures ok { IfOk result (λ _. AreUnion (byte_rows self.old) (byte_rows other.now) (byte_rows self.new)) }
        ensures err { OnErr result (byte_rows self.new ≡ byte_rows self.old) }
        ensures absent { OnErr result (LacksOne (byte_rows self.old) (byte_rows other.now)) }
        ensures put { IfOk result (λ _. PutsMissing (byte_rows self.old) (byte_rows other.now) self.old.bytes.items self.new.bytes.items) }
        ensures kept { OnErr result (self.new.bytes.items ≡ self.old.bytes.items) }
        ensures unchanged { IfOk result (λ _. (LacksOne (byte_rows self.old) (byte_rows other.now) → ⊥) → self.new ≡ self.old) }
        ensures room { vec_capacity self.old.bytes ≤ vec_capacity self.new.bytes }
    {
        let missing = missing_rows(self.alloc, self.rows(), other.rows())?;
        let len = self.bytes.len();
        let taken = self.take_rows(missing);
        if taken.is_err() {
            self.bytes.truncate(len);
        }
        taken
    }

    /// Returns an iterator over the rows, in order of key.
    pub fn rows(&self) -> BytesRows<'_>
        ensures all { byte_rows_left result ≡ byte_rows self.now }
        ensures ascending { IsAscending (byte_rows_left result) }
    {
        BytesRows {
            entries: self.rows.iter(),
            bytes: self.bytes.as_slice(),
        }
    }
}

/// An iterator over the rows of a table, in order of key.
#[derive(Drop)]
pub struct BytesRows<'a> {
    entries: Entries<'a, Span>,
    bytes: &'a [u8],
    ghost sound: { AreSpansOf bytes.now (entries_left entries) } by { AreSpansOf-prop bytes.now (entries_left entries) },
}

impl<'a> Iterator for BytesRows<'a> {
    ghost use Rattle.std.specs.Iterator.{YieldsFirstBy, item_count};
    ghost use Rattle.hprof_byte_tables.specs.BytesTable.{byte_rows_left};

    type Item = (u64, &'a [u8]);

    ghost next_gives = { YieldsFirstBy (λ row. (row.0, row.1.now)) byte_rows_left };

    ghost remaining = { item_count byte_rows_left };

    #[inline(always)]
    fn next(&mut self) -> Option<(u64, &'a [u8])> {
        let (key, span) = self.entries.next()?;
        Some((key, span.row_in(self.bytes)?))
    }
}
