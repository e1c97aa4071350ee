//! Entries, one after the other.

ghost use Rattle.std.specs.Prelude.{◌≡◌, ◌-◌, ◌<◌, ◌≤◌, List, ◌∷◌, slice_get, IfSome, IsSomeAnd};
ghost use Rattle.std.specs.Result.{result_ok};
ghost use Rattle.hprof_values.specs.declared.entry.Entry.{Entry};
ghost use Rattle.hprof_values.specs.FieldGroups.{exactly};
ghost use Rattle.hprof_values.specs.Entries.{EntryFits, entries_bytes, entries_in, entry_end, IsEntryList, most_entries};

use crate::bounded_bytes::BoundedBytes;
use crate::entry::{Entry, EntryKind, entry_at, entry_end};
use crate::ids::IdSize;

/// The greatest count of entries that a dump can state.
const MOST_ENTRIES: usize = u16::MAX as usize;

/// Returns the number of bytes of the first entry, or `None` if the bytes do not begin with a whole, valid one.
fn first_len(bytes: &[u8], kind: EntryKind, ids: IdSize) -> Option<usize>
    ensures { result ≡ result_ok (entry_end ids kind (exactly bytes.now) bytes.now 0) }
{
    let item = BoundedBytes {
        bytes,
        room: bytes.len(),
        longest: bytes.len(),
    };
    entry_end(&item, 0, kind, ids).ok()
}

/// Returns the number of entries that fill the bytes, or `None` if no number up to 65,535 does.
pub fn count_entries(bytes: &[u8], kind: EntryKind, ids: IdSize) -> Option<usize>
    ensures found { IfSome result (λ count. IsEntryList ids kind (entries_in ids kind count bytes.now) bytes.now) }
    ensures few { IfSome result (λ count. count ≤ most_entries) }
    ensures only { (entries : List Entry) → IsEntryList ids kind entries bytes.now
        → IsSomeAnd result (λ count. entries_in ids kind count bytes.now ≡ entries) }
{
    let mut rest = bytes;
    let mut count = 0;
    while !rest.is_empty() {
        if count == MOST_ENTRIES {
            return None;
        }
        let len = first_len(rest, kind, ids)?;
        (_, rest) = rest.split_at(len);
        count += 1;
    }
    Some(count)
}

/// Returns the first of `left` entries that fill the bytes, and the bytes of the others.
pub fn next_entry(bytes: &[u8], left: usize, kind: EntryKind, ids: IdSize) -> (Entry, &[u8])
    requires some { 0 < left }
    requires spelled { bytes.now ≡ entries_bytes ids kind (entries_in ids kind left bytes.now) }
    ensures first { entries_in ids kind left bytes.now ≡ result.0 ∷ entries_in ids kind (left - 1) result.1.now }
    ensures fits { EntryFits ids kind result.0 }
    ensures spelled { result.1.now ≡ entries_bytes ids kind (entries_in ids kind (left - 1) result.1.now) }
{
    let entry = entry_at(bytes, kind, ids);
    let len = kind.lead_width(ids) + 1 + kind.bits_width(entry.basic, ids);
    let (_, rest) = bytes.split_at(len);
    (entry, rest)
}

/// Returns the entry at a place among the entries that fill the bytes.
pub fn nth_entry(
    bytes: &[u8],
    count: usize,
    place: usize,
    kind: EntryKind,
    ids: IdSize,
) -> Option<Entry>
    requires { bytes.now ≡ entries_bytes ids kind (entries_in ids kind count bytes.now) }
    ensures entry { result ≡ slice_get (entries_in ids kind count bytes.now) place }
    ensures fits { IfSome result (EntryFits ids kind) }
{
    let mut rest = bytes;
    let mut left = count;
    let mut before = place;
    while left > 0 {
        let (entry, others) = next_entry(rest, left, kind, ids);
        if before == 0 {
            return Some(entry);
        }
        rest = others;
        left -= 1;
        before -= 1;
    }
    None
}
