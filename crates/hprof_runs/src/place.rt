//! Places of rows.

ghost use Rattle.std.specs.Prelude.{◌≡◌, ◌<◌, ◌^◌, take, drop};
ghost use Rattle.hprof_runs.specs.Spelling.{spelled_content};

use crate::header::{HEADER_BYTES, first_content};

/// The key of a row, and where the row is spelled among others.
#[derive(Clone, Copy)]
pub(crate) struct Place {
    /// The key.
    pub(crate) key: u64,
    /// The offset of its header, behind which its bytes come.
    pub(crate) at: usize,
    ghost key_fits: { key < 2 ^ 64 },
}

impl Place {
    /// Returns the place of a row.
    #[inline(always)]
    pub(crate) fn new(key: u64, at: usize) -> Self
        ensures key { result.key ≡ key }
        ensures at { result.at ≡ at }
    {
        Place { key, at }
    }
}

/// Returns the bytes of the row at a place.
#[inline(always)]
pub(crate) fn bytes_at(bytes: &[u8], place: Place) -> &[u8]
    ensures { result.now ≡ spelled_content (drop place.at bytes.now) }
{
    first_content(bytes.get(place.at..).unwrap_or(&[]))
}

/// Returns so many bytes of the row at a place, or as many as there are.
#[inline(always)]
pub(crate) fn bytes_of(bytes: &[u8], place: Place, len: usize) -> &[u8]
    ensures { result.now ≡ take len (drop 12 (drop place.at bytes.now)) }
{
    let spelled = bytes.get(place.at..).unwrap_or(&[]);
    let rest = spelled.get(HEADER_BYTES..).unwrap_or(&[]);
    rest.get(..len).unwrap_or(rest)
}
