//! A table of rows by key.

ghost use Rattle.std.specs.Prelude.{◌≡◌, ◌<◌, ◌+◌, ◌^◌, ℕ, List, [], length, map, IfOk, OnErr, IsTrue, ◌↔◌, ◌⊎◌, ⊤, None};
ghost use Rattle.std.specs.Option.{option_copied};
ghost use Rattle.std.specs.Ordering.{nat_cmp};
ghost use Rattle.std.specs.BTreeMap.{is_at, insert_entry};
ghost use Rattle.std.specs.Map.{lookup};
ghost use Rattle.hprof_tables.specs.PlacedRows.{AreWithin, AreWithin-prop, numbered};
ghost use Rattle.hprof_tables.specs.SortedTable.{entries_of};

use crate::content::Content;
use crate::rows::Rows;
use crate::side_by_side::{first_difference, missing_rows, same_rows};
use crate::sorted_table::SortedTable;
use crate::visit::Visit;
use std::alloc::{AllocError, Global};

/// The result of stating a row.
#[derive(Clone, Copy, Debug, PartialEq, Eq)]
pub enum Stated {
    /// The key was new, and its row was added.
    New,
    /// The key is present with the same content.
    Same,
    /// The key is present with another content.
    Differs,
}

/// A visit that stores a place under its key.
#[derive(Clone, Copy)]
struct Placing {
    place: usize,
}

impl Visit<usize> for Placing {
    type Answer = ();

    // A place stands in the table.
    type Room = ();

    ghost held = { λ _. [] };

    ghost answers = { λ _ _ _ _. ⊤ };

    ghost makes = { λ placing _ place _. place ≡ placing.place };

    ghost refuses = { λ _ _. ⊥ };

    ghost grows = { λ _ _. ⊤ };

    fn ask(self, _place: &usize, _room: &()) {}

    fn make(self, _room: &mut ()) -> Result<usize, AllocError> {
        Ok(self.place)
    }
}

/// Returns the keys of rows, with places that count up from `first`.
fn number<V>(
    alloc: Global,
    first: usize,
    lent: &[(u64, &V)],
) -> Result<Vec<(u64, usize)>, AllocError>
    requires { first + length lent.now < 2 ^ 64 }
    ensures { IfOk result (λ places. places.items ≡ numbered first lent.now) }
{
    let mut places = Vec::new(alloc);
    places.reserve_exact(lent.len())?;
    let mut place = first;
    for row in lent {
        places.push((row.0, place))?;
        place += 1;
    }
    Ok(places)
}

/// Returns copies of rows.
fn copies<V: Content + Drop>(alloc: Global, lent: Vec<(u64, &V)>) -> Result<Vec<V>, AllocError>
    ensures { IfOk result (λ rows. map V.content rows.items ≡ map (λ row. V.content row.1.now) lent.entry.items) }
{
    let mut rows = Vec::new(alloc);
    rows.reserve_exact(lent.len())?;
    for (_key, row) in lent {
        rows.push(V::copied(row, alloc)?)?;
    }
    Ok(rows)
}

/// A table of rows by key, in order of key. No key has two rows.
#[derive(Drop)]
pub struct Relation<V> {
    /// The rows, in the order in which they came.
    rows: Vec<V>,
    /// The place of each row, by its key.
    places: SortedTable<usize>,
    alloc: Global,
    ghost sound: { AreWithin rows.items (entries_of places) } by { AreWithin-prop rows.items (entries_of places) },
    // Each row has its key.
    ghost count: { length rows.items ≡ length (entries_of places) },
}

impl<V: Content + Drop> Relation<V> {
    ghost use Rattle.hprof_tables.specs.Relation.{contents_of, rows_of, States};
    ghost use Rattle.hprof_tables.specs.SideBySide.{IsFirstDifference, LacksOne};
    ghost use Rattle.hprof_tables.specs.Union.{AreApart, AreUnion};
    ghost use Rattle.hprof_tables.specs.Rows.{rows_left};
    ghost use Rattle.hprof_tables.specs.SortedRows.{IsAscending};
    ghost use Rattle.hprof_tables.specs.Relation.{HasNoRoom, MayNeedMemory};

    /// Returns an empty table. Allocates nothing.
    pub fn new(alloc: Global) -> Self
        ensures none { rows_of result ≡ [] }
        ensures no_room { HasNoRoom result }
    {
        Relation {
            rows: Vec::new(alloc),
            places: SortedTable::new(alloc),
            alloc,
        }
    }

    /// Returns a table with the same rows. If memory runs out, the answer is `AllocError`.
    pub fn copied(&self, alloc: Global) -> Result<Self, AllocError>
    where
        V: Copy,
        ensures { IfOk result (λ table. rows_of table ≡ rows_of self.now) }
    {
        let rows = Vec::from_slice(alloc, &self.rows)?;
        let places = self.places.copied(alloc)?;
        Ok(Relation {
            rows,
            places,
            alloc,
        })
    }

    /// States a row under a key. If the key is present, its row stays and nothing is allocated.
    pub fn state(&mut self, key: u64, row: V) -> Result<Stated, AllocError>
        ensures ok { IfOk result (λ stated. States V.content (rows_of self.old) key (V.content row) stated (rows_of self.new)) }
        ensures err { OnErr result (rows_of self.new ≡ rows_of self.old) }
        ensures absent { OnErr result (lookup (is_at (nat_cmp key)) (rows_of self.old) ≡ None) }
        ensures full { OnErr result (MayNeedMemory self.old key) }
    {
        self.places.turn_to(key);
        match self.get(key) {
            None => {
                self.add(key, row)?;
                Ok(Stated::New)
            }
            Some(there) if there.agrees(&row) => Ok(Stated::Same),
            Some(_) => Ok(Stated::Differs),
        }
    }

    /// Adds a row under a new key. If memory runs out, the rows are unchanged.
    fn add(&mut self, key: u64, row: V) -> Result<(), AllocError>
        requires { lookup (is_at (nat_cmp key)) (rows_of self.old) ≡ None }
        ensures ok { IfOk result (λ _. rows_of self.new ≡ insert_entry nat_cmp (rows_of self.old) key row) }
        ensures err { OnErr result (rows_of self.new ≡ rows_of self.old) }
        ensures full { OnErr result (MayNeedMemory self.old key) }
    {
        self.rows.reserve(1)?;
        let placing = Placing {
            place: self.rows.len(),
        };
        self.places.visit(key, placing, &mut ())?;
        self.rows.push_reserved(row);
        Ok(())
    }

    /// Returns the row under a key.
    pub fn get(&self, key: u64) -> Option<&V>
        ensures { option_copied result ≡ lookup (is_at (nat_cmp key)) (rows_of self.now) }
    {
        let place = self.places.get(key)?;
        Some(&self.rows[*place])
    }

    /// Returns the number of rows.
    pub fn len(&self) -> usize
        ensures { result ≡ length (rows_of self.now) }
    {
        self.places.len()
    }

    /// Returns whether there is no row.
    pub fn is_empty(&self) -> bool
        ensures { IsTrue result ↔ (rows_of self.now ≡ []) }
    {
        self.len() == 0
    }

    /// Returns whether both tables have the same keys with the same contents.
    pub fn same(&self, other: &Self) -> bool
        ensures { IsTrue result ↔ (contents_of V.content (rows_of self.now) ≡ contents_of V.content (rows_of other.now)) }
    {
        same_rows(self.rows(), other.rows())
    }

    /// Returns the least key whose contents differ in the two tables.
    pub fn first_difference(&self, other: &Self) -> Option<u64>
        ensures { IsFirstDifference (contents_of V.content (rows_of self.now)) (contents_of V.content (rows_of other.now)) result }
    {
        first_difference(self.rows(), other.rows())
    }

    /// Adds copies of rows whose keys are new. If memory runs out, the rows are unchanged.
    fn take_rows(&mut self, lent: Vec<(u64, &V)>) -> Result<(), AllocError>
        requires ascending { IsAscending (contents_of (λ row. V.content row.now) lent.items) }
        requires apart { AreApart (contents_of V.content (rows_of self.old)) (contents_of (λ row. V.content row.now) lent.items) }
        ensures ok { IfOk result (λ _. AreUnion (contents_of V.content (rows_of self.old))
            (contents_of (λ row. V.content row.now) lent.entry.items) (contents_of V.content (rows_of self.new))) }
        ensures err { OnErr result (rows_of self.new ≡ rows_of self.old) }
    {
        self.rows.reserve(lent.len())?;
        let fresh = number(self.alloc, self.rows.len(), &lent)?;
        let mut copied = copies(self.alloc, lent)?;
        self.places.merge(self.alloc, fresh)?;
        let Ok(()) = self.rows.append(&mut copied) else {
            unreachable!()
        };
        Ok(())
    }

    /// Adds the rows of another table whose keys are new, in one pass over both. If no key is new, nothing is allocated. If memory runs
    /// out, the rows are unchanged.
    pub fn join(&mut self, other: &Self) -> Result<(), AllocError>
        ensures ok { IfOk result (λ _. AreUnion (contents_of V.content (rows_of self.old)) (contents_of V.content (rows_of other.now))
            (contents_of V.content (rows_of self.new))) }
        ensures err { OnErr result (rows_of self.new ≡ rows_of self.old) }
        ensures absent { OnErr result (LacksOne (contents_of V.content (rows_of self.old)) (contents_of V.content (rows_of other.now))) }
        ensures unchanged { IfOk result (λ _. (LacksOne (contents_of V.content (rows_of self.old))
            (contents_of V.content (rows_of other.now)) → ⊥) → self.new ≡ self.old) }
    {
        let missing = missing_rows(self.alloc, self.rows(), other.rows())?;
        if missing.is_empty() {
            return Ok(());
        }
        self.take_rows(missing)
    }

    /// Returns an iterator over the rows, in order of key.
    pub fn rows(&self) -> Rows<'_, V>
        ensures all { rows_left result ≡ rows_of self.now }
        ensures ascending { IsAscending (rows_left result) }
    {
        Rows::new(self.places.iter(), self.rows.as_slice())
    }
}
