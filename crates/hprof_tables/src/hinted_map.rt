//! A map from numbers that finds most keys without a search.

ghost use Rattle.std.specs.Prelude.{◌≡◌, ◌↔◌, ◌++◌, ◌∷◌, ◌<◌, ◌==◌, ℕ, [], length, IsTrue, IfNone, IfSome, OnErr, OnOk, Some, None};
ghost use Rattle.std.specs.Prelude.{is_some, nat_eq};
ghost use Rattle.std.specs.Prelude.{Contains, if◌then◌else◌, slice_get, vec_capacity};
ghost use Rattle.std.specs.List.{IsDistinct};
ghost use Rattle.std.specs.Map.{keys_of};
ghost use Rattle.std.specs.Option.{option_copied};
ghost use Rattle.hprof_tables.specs.Places.{ArePlaces, ArePlaces-prop};

use std::alloc::{AllocError, Global};
use std::collections::BTreeMap;

/// The number of hints.
pub(crate) const HINTS: usize = 65_536;

/// An odd number. The first bits of a key's product with it are the slot of its hint.
const SPREAD: u64 = 0x9E37_79B9_7F4A_7C15;

/// Returns the slot of a key's hint. Several keys may share a slot.
#[inline(always)]
pub(crate) fn slot_of(key: u64) -> usize
    ensures { result < HINTS }
{
    (key.wrapping_mul(SPREAD) >> 48) as usize
}

/// Stores the place of a key in its slot.
fn leave_hint(hints: &mut [usize], key: u64, place: usize) {
    if let Some(hint) = hints.get_mut(slot_of(key)) {
        *hint = place;
    }
}

/// A map from numbers to values. Each insertion stores the place of its key as a hint, in a slot that other keys may share. A look-up tries
/// the hint first, and searches if it is wrong.
#[derive(Drop)]
pub struct HintedMap<V> {
    /// The keys with their values, in order of insertion.
    rows: Vec<(u64, V)>,
    /// The place of each key among the rows.
    places: BTreeMap<u64, usize>,
    /// For each slot the place of the last key that was stored in it. Empty until the first key is inserted.
    hints: Vec<usize>,
    ghost sound: { ArePlaces (keys_of rows.items) places.entries } by { ArePlaces-prop (keys_of rows.items) places.entries },
}

impl<V> HintedMap<V> {
    ghost use Rattle.hprof_tables.specs.HintedMap.{keys_in, rows_in, value_in};

    /// Returns an empty map. Allocates nothing.
    pub fn new(alloc: Global) -> Self
        ensures none { (key : ℕ) → value_in result key ≡ None }
        ensures no_rows { rows_in result ≡ [] }
        ensures no_room { (vec_capacity result.rows ≡ 0) × (vec_capacity result.hints ≡ 0) }
    {
        HintedMap {
            rows: Vec::new(alloc),
            places: BTreeMap::new(alloc),
            hints: Vec::new(alloc),
        }
    }

    /// Returns whether the key is at this place.
    #[inline(always)]
    fn is_at(&self, key: u64, place: usize) -> bool
        ensures { IsTrue result ↔ (slice_get (keys_in self.now) place ≡ Some key) }
    {
        match self.rows.get(place) {
            Some(row) => row.0 == key,
            None => false,
        }
    }

    /// Returns the place of a key, by a search. It is not inlined, since it is seldom needed.
    #[inline(never)]
    fn listed_place(&self, key: u64) -> Option<usize>
        ensures some { IfSome result (λ place. slice_get (keys_in self.now) place ≡ Some key) }
        ensures none { IfNone result (value_in self.now key ≡ None) }
    {
        match self.places.get(&key) {
            Some(place) if self.is_at(key, *place) => Some(*place),
            _ => None,
        }
    }

    /// Returns the place of a key.
    #[inline(always)]
    fn place_under(&self, key: u64) -> Option<usize>
        ensures some { IfSome result (λ place. slice_get (keys_in self.now) place ≡ Some key) }
        ensures none { IfNone result (value_in self.now key ≡ None) }
    {
        match self.hints.get(slot_of(key)) {
            Some(place) if self.is_at(key, *place) => Some(*place),
            _ => self.listed_place(key),
        }
    }

    /// Returns the value under a key.
    #[inline(always)]
    pub fn get(&self, key: u64) -> Option<&V>
        ensures { option_copied result ≡ value_in self.now key }
    {
        let place = self.place_under(key)?;
        Some(&self.rows[place].1)
    }

    /// Returns whether the map has the key.
    #[inline(always)]
    pub fn contains_key(&self, key: u64) -> bool
        ensures { result ≡ is_some (value_in self.now key) }
    {
        self.get(key).is_some()
    }

    /// Inserts a new key with its value.
    fn add(&mut self, key: u64, value: V) -> Result<(), AllocError>
    where
        V: Drop,
        requires { value_in self.old key ≡ None }
        ensures ok { OnOk result ((at : ℕ) → value_in self.new at ≡ (if key == at then Some value else value_in self.old at)) }
        ensures err { OnErr result (rows_in self.new ≡ rows_in self.old) }
    {
        if self.hints.is_empty() {
            self.hints.resize(HINTS, 0)?;
        }
        self.rows.reserve(1)?;
        let place = self.rows.len();
        self.places.insert(key, place)?;
        self.rows.push((key, value))?;
        leave_hint(&mut self.hints, key, place);
        Ok(())
    }

    /// Sets the value of a key.
    ///
    /// Memory can run out only if the key is new. The map is then unchanged.
    pub fn insert(&mut self, key: u64, value: V) -> Result<(), AllocError>
    where
        V: Drop,
        ensures ok { OnOk result ((at : ℕ) → value_in self.new at ≡ (if key == at then Some value else value_in self.old at)) }
        ensures err { OnErr result (rows_in self.new ≡ rows_in self.old) }
        ensures absent { OnErr result (value_in self.old key ≡ None) }
    {
        match self.place_under(key) {
            None => self.add(key, value),
            Some(place) => {
                self.rows[place].1 = value;
                Ok(())
            }
        }
    }

    /// Returns the number of keys.
    pub fn len(&self) -> usize
        ensures { result ≡ length (rows_in self.now) }
    {
        self.rows.len()
    }

    /// Returns whether there is no key.
    pub fn is_empty(&self) -> bool
        ensures { IsTrue result ↔ (rows_in self.now ≡ []) }
    {
        self.len() == 0
    }

    /// Returns the keys with their values. Each key is there once.
    pub fn rows(&self) -> &[(u64, V)]
        ensures all { result.now ≡ rows_in self.now }
        ensures once { IsDistinct nat_eq (keys_of result.now) }
        ensures found { (key : ℕ) (value : V) → (value_in self.now key ≡ Some value) ↔ Contains result.now (key, value) }
    {
        self.rows.as_slice()
    }
}
