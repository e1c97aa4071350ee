//! Two tables, walked in one pass.

ghost use Rattle.std.specs.Prelude.{◌≡◌, ◌↔◌, ℕ, List, IfOk, OnErr, IsTrue};
ghost use Rattle.hprof_tables.specs.SideBySide.{AreMissing, IsFirstDifference, LacksOne};
ghost use Rattle.hprof_tables.specs.SortedRows.{IsAscending};
ghost use Rattle.std.specs.Iterator.{YieldsFirstBy};
ghost use Rattle.hprof_tables.specs.Relation.{contents_of};
ghost use Rattle.hprof_tables.specs.Rows.{rows_left};

use crate::content::Content;
use crate::rows::Rows;
use std::alloc::{AllocError, Global};
use std::cmp::Ordering;

/// An iterator over rows of any kind, with their keys.
pub trait KeyedRows<R: Content> {
    // The keys and contents that are still to come.
    ghost left: { Self → List (ℕ × List ℕ) };

    /// Takes the first row.
    fn next_row(&mut self) -> Option<(u64, R)>
        ensures { YieldsFirstBy (λ row. (row.0, R.content row.1)) left self.old result self.new };
}

impl<V: Content> Content for &V {
    ghost content = { λ row. V.content row.now };

    ghost refuses = { λ _. ⊥ };

    fn agrees(&self, other: &Self) -> bool {
        V::agrees(*self, *other)
    }

    fn copied(&self, _alloc: Global) -> Result<Self, AllocError> {
        Ok(*self)
    }
}

impl<'a, V: Content> KeyedRows<&'a V> for Rows<'a, V> {
    ghost left = { λ rows. contents_of V.content (rows_left rows) };

    fn next_row(&mut self) -> Option<(u64, &'a V)> {
        self.next()
    }
}

/// Returns whether both have the same keys with the same contents.
pub fn same_rows<R: Content + Drop, I: KeyedRows<R> + Drop>(mut rows: I, mut others: I) -> bool
    ensures { IsTrue result ↔ (I.left rows ≡ I.left others) }
{
    while let Some((key, row)) = rows.next_row() {
        let Some((other_key, other)) = others.next_row() else {
            return false;
        };
        if key != other_key || !row.agrees(&other) {
            return false;
        }
    }
    others.next_row().is_none()
}

/// Returns the least key whose contents differ. Walks over each once.
pub fn first_difference<R: Content + Drop, I: KeyedRows<R> + Drop>(
    mut rows: I,
    mut others: I,
) -> Option<u64>
    requires ascending { IsAscending (I.left rows) }
    requires others_ascending { IsAscending (I.left others) }
    ensures { IsFirstDifference (I.left rows) (I.left others) result }
{
    let mut first = rows.next_row();
    let mut other_first = others.next_row();
    while let Some((key, row)) = first {
        let Some((other_key, other)) = other_first else {
            return None;
        };
        match key.cmp(&other_key) {
            Ordering::Less => {
                first = rows.next_row();
                other_first = Some((other_key, other));
            }
            Ordering::Greater => {
                first = Some((key, row));
                other_first = others.next_row();
            }
            Ordering::Equal => {
                if !row.agrees(&other) {
                    return Some(key);
                }
                first = rows.next_row();
                other_first = others.next_row();
            }
        }
    }
    None
}

/// Returns the rows of `others` whose keys `rows` lacks. Walks over each once. If there are none, nothing is allocated.
pub fn missing_rows<S, I, R, J>(
    alloc: Global,
    mut rows: I,
    mut others: J,
) -> Result<Vec<(u64, R)>, AllocError>
where
    S: Content + Drop,
    I: KeyedRows<S> + Drop,
    R: Content + Drop,
    J: KeyedRows<R> + Drop,
    requires ascending { IsAscending (I.left rows) }
    requires others_ascending { IsAscending (J.left others) }
    ensures ok { IfOk result (λ missing. AreMissing (I.left rows) (J.left others) (contents_of R.content missing.items)) }
    ensures absent { OnErr result (LacksOne (I.left rows) (J.left others)) }
{
    let mut missing = Vec::new(alloc);
    let mut first = rows.next_row();
    let mut other_first = others.next_row();
    while let Some((other_key, other)) = other_first {
        let Some((key, row)) = first else {
            missing.push((other_key, other))?;
            first = None;
            other_first = others.next_row();
            continue;
        };
        match key.cmp(&other_key) {
            Ordering::Less => {
                first = rows.next_row();
                other_first = Some((other_key, other));
            }
            Ordering::Greater => {
                missing.push((other_key, other))?;
                first = Some((key, row));
                other_first = others.next_row();
            }
            Ordering::Equal => {
                first = rows.next_row();
                other_first = others.next_row();
            }
        }
    }
    Ok(missing)
}
