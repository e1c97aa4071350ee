//! One more row of each key with two contents.

ghost use Rattle.std.specs.Prelude.{◌≡◌, ⊤};
ghost use Rattle.hprof_runs.specs.Other.{others_from, some_content};
ghost use Rattle.hprof_runs.specs.Picked.{differs_from, others_behind, others_of};
ghost use Rattle.hprof_runs.specs.Places.{content_at, rows_lying};

use crate::place::{Place, bytes_at};
use hprof_merge::{AscendingCursor, RowCursor};
use std::convert::Infallible;

/// A cursor over one more row of each key with two contents: the first row whose bytes differ from those of the key's first row.
#[derive(Drop)]
pub struct Others<'a> {
    bytes: &'a [u8],
    shown: Option<Place>,
    rest: &'a [Place],
}

/// Returns whether there is a content, and the bytes at a place differ from it.
fn differs(bytes: &[u8], content: Option<Place>, place: Place) -> bool
    ensures { result ≡ differs_from (some_content bytes.now content) (content_at bytes.now place) }
{
    match content {
        Some(first) => bytes_at(bytes, first) != bytes_at(bytes, place),
        None => false,
    }
}

/// Returns the next of the others behind a row with this key, and the places behind it. The content is that of the first row with this
/// key, unless another one was found.
fn next_other<'a>(
    bytes: &[u8],
    places: &'a [Place],
    mut key: u64,
    mut content: Option<Place>,
) -> (Option<Place>, &'a [Place])
    ensures { others_from bytes.now result.0 result.1.now
        ≡ others_behind key (some_content bytes.now content) (rows_lying bytes.now places.now) }
{
    let mut rest = places;
    while let Some((place, behind)) = rest.split_first() {
        rest = behind;
        if place.key > key {
            key = place.key;
            content = Some(*place);
        } else if differs(bytes, content, *place) {
            return (Some(Place::new(key, place.at)), rest);
        }
    }
    (None, rest)
}

impl<'a> Others<'a> {
    ghost use Rattle.hprof_runs.specs.Picking.{others_to_come};

    /// Returns a cursor over rows that lie at places.
    pub(crate) fn new(bytes: &'a [u8], places: &'a [Place]) -> Self
        ensures { others_to_come result ≡ others_of (rows_lying bytes.now places.now) }
    {
        let (shown, rest) = match places.split_first() {
            Some((first, rest)) => next_other(bytes, rest, first.key, Some(*first)),
            None => (None, places),
        };
        Others { bytes, shown, rest }
    }
}

impl RowCursor for Others<'_> {
    ghost use Rattle.hprof_runs.specs.Picking.{OthersGo, others_shown};

    ghost shown = { others_shown };

    ghost goes = { OthersGo };

    ghost fails = { λ old fault new. ⊥ };

    ghost well = { λ it. ⊤ };

    type Fault = Infallible;

    #[inline(always)]
    fn current(&self) -> Option<(u64, &[u8])> {
        let place = self.shown?;
        Some((place.key, bytes_at(self.bytes, place)))
    }

    #[inline(always)]
    fn advance(&mut self) -> Result<(), Infallible> {
        if let Some(place) = self.shown {
            let (shown, rest) = next_other(self.bytes, self.rest, place.key, None);
            self.shown = shown;
            self.rest = rest;
        }
        Ok(())
    }
}

impl AscendingCursor for Others<'_> {
    ghost use Rattle.hprof_runs.specs.PickedRise.{others_rise};

    ghost rises = { others_rise };
}
