//! The first row of each key.

ghost use Rattle.std.specs.Prelude.{◌≡◌, ◌++◌, ℕ, List, ⊤};
ghost use Rattle.hprof_merge.specs.Late.{in_order_above};
ghost use Rattle.hprof_runs.specs.declared.place.Place.{Place};
ghost use Rattle.hprof_runs.specs.Ahead.{AreAhead, AreAhead-prop};
ghost use Rattle.hprof_runs.specs.Picked.{firsts_of};
ghost use Rattle.hprof_runs.specs.Places.{rows_lying};

use crate::ahead::Ahead;
use crate::place::{Place, bytes_of};
use hprof_merge::{AscendingCursor, RowCursor};
use std::convert::Infallible;

/// A cursor over the first row of each key.
#[derive(Drop)]
pub struct Firsts<'a> {
    bytes: &'a [u8],
    places: &'a [Place],
    ahead: Ahead,
    ghost lengths: { AreAhead bytes.now places.now ahead } by { AreAhead-prop bytes.now places.now ahead },
}

/// Returns the places from the first one on whose key is above this one.
#[inline(always)]
fn places_above(places: &[Place], key: u64) -> &[Place]
    ensures above { (bytes : List ℕ) → firsts_of (rows_lying bytes result.now) ≡ in_order_above key (rows_lying bytes places.now) }
    ensures behind { (front : List Place) × (places.now ≡ front ++ result.now) }
{
    let mut rest = places;
    while let Some((place, behind)) = rest.split_first() {
        if place.key > key {
            break;
        }
        rest = behind;
    }
    rest
}

impl<'a> Firsts<'a> {
    ghost use Rattle.hprof_runs.specs.Picking.{firsts_to_come};

    /// Returns a cursor over rows that lie at places.
    pub(crate) fn new(bytes: &'a [u8], places: &'a [Place]) -> Self
        ensures { firsts_to_come result ≡ firsts_of (rows_lying bytes.now places.now) }
    {
        Firsts {
            bytes,
            places,
            ahead: Ahead::read(bytes, places),
        }
    }
}

impl RowCursor for Firsts<'_> {
    ghost use Rattle.hprof_runs.specs.Picking.{FirstsGo, firsts_shown};

    ghost shown = { firsts_shown };

    ghost goes = { FirstsGo };

    ghost fails = { λ old fault new. ⊥ };

    ghost well = { λ it. ⊤ };

    type Fault = Infallible;

    #[inline(always)]
    fn current(&self) -> Option<(u64, &[u8])> {
        let place = self.places.first()?;
        Some((place.key, bytes_of(self.bytes, *place, self.ahead.first())))
    }

    #[inline(always)]
    fn advance(&mut self) -> Result<(), Infallible> {
        if let Some((place, rest)) = self.places.split_first() {
            let above = places_above(rest, place.key);
            let count = self.places.len() - above.len();
            self.ahead.pass(count, self.bytes, above);
            self.places = above;
        }
        Ok(())
    }
}

impl AscendingCursor for Firsts<'_> {
    ghost use Rattle.hprof_runs.specs.PickedRise.{firsts_rise};

    ghost rises = { firsts_rise };
}
