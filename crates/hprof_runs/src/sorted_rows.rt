//! Rows sorted by key.

ghost use Rattle.std.specs.Prelude.{◌≡◌, ◌↔◌, [], ℕ, List, IsTrue, MatchOption};
ghost use Rattle.hprof_merge.specs.Rows.{Has};
ghost use Rattle.hprof_runs.specs.Places.{HaveSortedKeys, IsPointOf, rows_lying};
ghost use Rattle.hprof_runs.specs.Spelling.{AllFit, AllFit-prop};

use crate::firsts::Firsts;
use crate::others::Others;
use crate::place::{Place, bytes_at};
use crate::rows::Rows;

/// Rows sorted by key, several of which may have one key.
#[derive(Drop)]
pub struct SortedRows {
    bytes: Vec<u8>,
    places: Vec<Place>,
    ghost sorted: { HaveSortedKeys places.items },
    ghost fit: { AllFit (rows_lying bytes.items places.items) } by { AllFit-prop (rows_lying bytes.items places.items) },
}

/// Returns the index of the first place whose key is not below this one, by binary search.
fn first_from(places: &[Place], key: u64) -> usize
    requires { HaveSortedKeys places.now }
    ensures { IsPointOf key places.now result }
{
    places.partition_point(|place| place.key < key)
}

impl SortedRows {
    ghost use Rattle.hprof_runs.specs.Picked.{firsts_of, others_of};
    ghost use Rattle.hprof_runs.specs.Picking.{firsts_to_come, others_to_come};
    ghost use Rattle.hprof_runs.specs.RowsIn.{rows_in, sorted_in};

    /// Returns the rows that lie at places.
    pub(crate) fn of(bytes: Vec<u8>, places: Vec<Place>) -> Self
        requires sorted { HaveSortedKeys places.items }
        requires fit { AllFit (rows_lying bytes.items places.items) }
        ensures { sorted_in result ≡ rows_lying bytes.items places.items }
    {
        SortedRows { bytes, places }
    }

    /// Returns whether there is no row.
    pub fn is_empty(&self) -> bool
        ensures { IsTrue result ↔ (sorted_in self.now ≡ []) }
    {
        self.places.is_empty()
    }

    /// Returns the bytes of the first row with a key, by binary search.
    pub fn find(&self, key: u64) -> Option<&[u8]>
        ensures { MatchOption result ((bytes : List ℕ) → Has (sorted_in self.now) (key, bytes) → ⊥)
            (λ bytes. Has (firsts_of (sorted_in self.now)) (key, bytes.now)) }
    {
        let index = first_from(&self.places, key);
        let Some(place) = self.places.get(index) else {
            return None;
        };
        if place.key != key {
            return None;
        }
        Some(bytes_at(&self.bytes, *place))
    }

    /// Returns a cursor over the first row of each key.
    pub fn firsts(&self) -> Firsts<'_>
        ensures { firsts_to_come result ≡ firsts_of (sorted_in self.now) }
    {
        Firsts::new(&self.bytes, &self.places)
    }

    /// Returns a cursor over one more row of each key with two contents.
    pub fn others(&self) -> Others<'_>
        ensures { others_to_come result ≡ others_of (sorted_in self.now) }
    {
        Others::new(&self.bytes, &self.places)
    }

    /// Returns an empty list of rows, which keeps the memory for further rows.
    pub fn into_rows(self) -> Rows
        ensures { rows_in result ≡ [] }
    {
        let SortedRows { bytes, places } = self;
        Rows::emptied(bytes, places)
    }
}
