//! Laws of the definitions. The contract of each function is a theorem; its body is empty.

ghost use Rattle.std.specs.Prelude.{◌≡◌, ◌+◌, ◌<◌, ◌≤◌, ◌⊎◌, ◌↔◌, List, ℕ, ◌++◌, length, drop, sum};
ghost use Rattle.std.specs.Cmp.Lexicographic.{slice_cmp};
ghost use Rattle.std.specs.Ordering.{nat_cmp};
ghost use Rattle.hprof_values.specs.declared.ids.IdSize.{IdSize};
ghost use Rattle.hprof_values.specs.declared.basic.Basic.{Basic};
ghost use Rattle.hprof_values.specs.Basic.{code_of_basic};
ghost use Rattle.hprof_values.specs.declared.root.Root.{Root};
ghost use Rattle.hprof_values.specs.declared.parse_stop.ParseStop.{ParseStop};
ghost use Rattle.hprof_values.specs.Ids.{IsBytes};
ghost use Rattle.hprof_values.specs.FieldGroups.{field_bytes, fields_in, FitFields, Bounds, reached, IsWithin, with_more};
ghost use Rattle.hprof_values.specs.FieldStops.{IsFirstStop};
ghost use Rattle.hprof_values.specs.Root.{root_bytes, RootFits};
ghost use Rattle.hprof_values.specs.declared.entry.Entry.{Entry};
ghost use Rattle.hprof_values.specs.declared.entry.EntryKind.{EntryKind};
ghost use Rattle.hprof_values.specs.Entries.{IsEntryList, entries_end};
ghost use Rattle.hprof_values.specs.EntryPlaces.{EntriesLie, StopsBehind};
ghost use Rattle.hprof_values.specs.Lists.{IsIdList};
ghost use Rattle.hprof_values.specs.declared.parse_stop.ParseStop.TheVariants as stops;

use crate::basic::Basic;
use crate::root::Root;

/// Roots compare as the bytes that encode them.
pub fn roots_in_order()
    ensures { (ids : IdSize) (root other : Root) → RootFits ids root → RootFits ids other
        → ⟦<Root as Ord>⟧.cmp root other ≡ slice_cmp nat_cmp (root_bytes ids root) (root_bytes ids other) }
{}

/// Types compare as their codes.
pub fn types_in_order()
    ensures { (basic other : Basic) → ⟦<Basic as Ord>⟧.cmp basic other ≡ nat_cmp (code_of_basic basic) (code_of_basic other) }
{}

/// Numbers that are written into fields read back, whatever follows, and numbers that are read write the same bytes.
pub fn fields_read_back()
    ensures again { (widths numbers rest : List ℕ) → FitFields widths numbers
        → (fields_in widths (field_bytes widths numbers ++ rest) ≡ numbers)
        × (drop (sum widths) (field_bytes widths numbers ++ rest) ≡ rest) }
    ensures found { (widths bytes : List ℕ) → IsBytes bytes → sum widths ≤ length bytes
        → FitFields widths (fields_in widths bytes) × (bytes ≡ field_bytes widths (fields_in widths bytes) ++ drop (sum widths) bytes) }
{}

/// Fields that lie within all bounds end where their widths say. If only their beginning is available, the answer is that more bytes are
/// needed. More bytes change no other answer.
pub fn fronts_are_short()
    ensures whole { (bounds : Bounds) (at : ℕ) (widths : List ℕ) → IsWithin bounds (at + sum widths)
        → reached bounds at widths ≡ Ok (at + sum widths) }
    ensures front { (bounds : Bounds) (at : ℕ) (widths : List ℕ) → at ≤ bounds.there → bounds.there < at + sum widths
        → at + sum widths ≤ bounds.room → at + sum widths ≤ bounds.longest → reached bounds at widths ≡ Err stops.Short }
    ensures more { (bounds : Bounds) (at more : ℕ) (widths : List ℕ)
        → (reached bounds at widths ≡ Err stops.Short) ⊎ (reached (with_more bounds more) at widths ≡ reached bounds at widths) }
{}

/// One or more fields end where their widths say exactly if that place lies within all bounds. Otherwise the answer is that of the first
/// field that does not end within them.
pub fn fields_end_or_stop()
    ensures end { (bounds : Bounds) (at end : ℕ) (widths : List ℕ) → 0 < length widths
        → (reached bounds at widths ≡ Ok end) ↔ ((end ≡ at + sum widths) × IsWithin bounds end) }
    ensures stop { (bounds : Bounds) (at : ℕ) (widths : List ℕ) (stop : ParseStop)
        → (reached bounds at widths ≡ Err stop) ↔ IsFirstStop bounds at widths stop }
{}

/// The same bytes encode one list of entries of a kind, and one list of identifiers.
pub fn one_list()
    ensures entries { (ids : IdSize) (kind : EntryKind) (entries others : List Entry) (bytes : List ℕ)
        → IsEntryList ids kind entries bytes → IsEntryList ids kind others bytes → entries ≡ others }
    ensures identifiers { (ids : IdSize) (numbers others bytes : List ℕ)
        → IsIdList ids numbers bytes → IsIdList ids others bytes → numbers ≡ others }
{}

/// Entries end at a place exactly if this many entries lie before it, one after the other, within all bounds. Otherwise the answer is that
/// of the tests of the first entry that does not end within them.
pub fn entries_end_or_stop()
    ensures end { (ids : IdSize) (kind : EntryKind) (bounds : Bounds) (bytes : List ℕ) (count at end : ℕ) → IsBytes bytes
        → bounds.there ≤ length bytes → IsWithin bounds at
        → (entries_end ids kind bounds bytes count at ≡ Ok end) ↔ (EntriesLie ids kind count bytes at end × IsWithin bounds end) }
    ensures stop { (ids : IdSize) (kind : EntryKind) (bounds : Bounds) (bytes : List ℕ) (count at : ℕ) (stop : ParseStop)
        → (entries_end ids kind bounds bytes count at ≡ Err stop) ↔ StopsBehind ids kind bounds bytes count at stop }
{}
