//! The entries of a class dump, read with their count.

ghost use Rattle.byteorder.specs.Endian.{big_number};
ghost use Rattle.hprof_values.specs.Ids.{IsBytes};
ghost use Rattle.std.specs.Prelude.{◌≡◌, ◌+◌, ◌≤◌, ◌<◌, ◌^◌, length, drop, Ok, Err, IfOk, MatchResult};
ghost use Rattle.hprof_values.specs.Entries.{entries_bytes, entries_in, entries_end, list_in, list_end};
ghost use Rattle.hprof_values.specs.BoundedBytes.{bounds_of};

use crate::bounded_bytes::BoundedBytes;
use crate::entry::{EntryKind, entry_end};
use crate::ids::IdSize;
use crate::parse_stop::ParseStop;
use byteorder::{BigEndian, ByteOrder};

/// The bytes of some entries, and their number.
#[derive(Clone, Copy, Debug)]
pub struct EntrySpan<'a> {
    /// The bytes of the entries, without their count.
    pub bytes: &'a [u8],
    /// The number of entries.
    pub count: u16,
    /// The place in the item where they end.
    pub end: usize,
    ghost range: { IsBytes bytes.now },
    ghost few: { count < 2 ^ 16 },
}

/// Returns the count that is stored at a place.
fn count_at(bytes: &[u8], at: usize) -> u16
    requires { at + 2 ≤ length bytes.now }
    ensures count { result ≡ big_number 2 (drop at bytes.now) }
    ensures bytes { IsBytes bytes.now }
{
    let (_, fields) = bytes.split_at(at);
    BigEndian::read_u16(fields)
}

/// Returns the end of this many entries, or the failure of the first test that fails.
fn entries_end(
    item: &BoundedBytes<'_>,
    at: usize,
    count: u16,
    kind: EntryKind,
    ids: IdSize,
) -> Result<usize, ParseStop>
    requires { at ≤ length item.now.bytes.now }
    ensures end { result ≡ entries_end ids kind (bounds_of item.now) item.now.bytes.now count at }
    ensures there { IfOk result (λ end. end ≤ length item.now.bytes.now) }
{
    let mut end = at;
    let mut left = count;
    while left > 0 {
        end = entry_end(item, end, kind, ids)?;
        left -= 1;
    }
    Ok(end)
}

/// Reads the list whose count is stored at a place.
#[tactic(auto, unfolding(crate::specs::Entries::list_end))]
pub fn list_at<'a>(
    item: &BoundedBytes<'a>,
    at: usize,
    kind: EntryKind,
    ids: IdSize,
) -> Result<EntrySpan<'a>, ParseStop>
    requires { at ≤ length item.now.bytes.now }
    // Where it ends, or which test fails.
    ensures end { MatchResult result
        (λ span. list_end ids kind (bounds_of item.now) item.now.bytes.now at ≡ Ok span.end)
        (λ stop. list_end ids kind (bounds_of item.now) item.now.bytes.now at ≡ Err stop) }
    // What is read is the list.
    ensures entries { IfOk result (λ span. entries_in ids kind span.count span.bytes.now ≡ list_in ids kind item.now.bytes.now at) }
    // It fills the bytes.
    ensures spelled { IfOk result (λ span. span.bytes.now ≡ entries_bytes ids kind (entries_in ids kind span.count span.bytes.now)) }
    ensures there { IfOk result (λ span. span.end ≤ length item.now.bytes.now) }
{
    let first = item.end_of(at, &[2])?;
    let count = count_at(item.bytes, at);
    let end = entries_end(item, first, count, kind, ids)?;
    let (_, rest) = item.bytes.split_at(first);
    let (bytes, _) = rest.split_at(end - first);
    Ok(EntrySpan { bytes, count, end })
}
