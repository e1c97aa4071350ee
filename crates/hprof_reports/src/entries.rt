//! Lists of entries, each of which a report prints in a line of its own.

ghost use Rattle.std.specs.Prelude.{◌≡◌, ℕ, List, IfOk, length, map, string_bytes};
ghost use Rattle.hprof_devices.specs.declared.health.Health.TheVariants.{Well};
ghost use Rattle.hprof_heap.specs.HeapFacts.{facts_of, size_of};
ghost use Rattle.hprof_naming.specs.Naming.{IsNaming, Naming};
ghost use Rattle.hprof_lines.specs.Line.{each_line, text_of_lines};
ghost use Rattle.hprof_lines.specs.Stopping.{LeavesTarget, WritesText};

use hprof_devices::Target;
use hprof_engine::ProductFault;
use hprof_heap::Heap;
use hprof_lines::write_line;
use hprof_values::{EntryIterator, Ids, ListEntry};
use std::alloc::{AllocError, Global};

/// An entry that a report prints in a line of its own.
pub(crate) trait Entry: Copy {
    ghost use Rattle.hprof_values.specs.declared.ids.IdSize.{IdSize};

    // Its line, where names are printed so, identifiers have that size, and it stands at that place.
    ghost line_at: { Naming → IdSize → ℕ → Self → List ℕ };

    /// Returns the line, with its line feed. If memory runs out, the answer is `AllocError`.
    fn line(&self, alloc: Global, heap: &Heap, place: u64) -> Result<String, AllocError>
        ensures { (naming : Naming) → IsNaming (facts_of heap.now) naming
            → IfOk result (λ line. string_bytes line ≡ line_at naming (size_of heap.now) place self.now) };
}

/// Entries, one after the other.
pub(crate) trait Entries: Drop {
    ghost use Rattle.std.specs.Prelude.{[], ◌∷◌, MatchOption};

    /// The kind of the entries.
    type Item: Entry;

    // Those that are still to come.
    ghost left: { Self → List Self.Item };

    /// Returns the next entry; None behind the last.
    fn next_entry(&mut self) -> Option<Self::Item>
        ensures { MatchOption result (left self.old ≡ []) (λ entry. left self.old ≡ entry ∷ left self.new) };
}

impl<'a, E: ListEntry + Entry> Entries for EntryIterator<'a, E> {
    ghost use Rattle.hprof_values.specs.Lists.{entries_left};

    type Item = E;

    ghost left = { λ entries. map E.of (entries_left entries) };

    fn next_entry(&mut self) -> Option<E> {
        self.next()
    }
}

impl<'a> Entries for Ids<'a> {
    ghost use Rattle.hprof_values.specs.Lists.{identifiers_left};

    type Item = u64;

    ghost left = { identifiers_left };

    fn next_entry(&mut self) -> Option<u64> {
        self.next()
    }
}

impl<'a, E: Entry> Entries for &'a [E] {
    type Item = E;

    ghost left = { λ entries. entries.now };

    fn next_entry(&mut self) -> Option<E> {
        let (first, rest) = self.split_first()?;
        *self = rest;
        Some(*first)
    }
}

/// Writes the line of each entry, of which there are `len`. If it stops, the bytes written are the beginning of the lines.
pub(crate) fn write_entries<L: Entries, W: Target>(
    alloc: Global,
    heap: &Heap,
    len: usize,
    mut entries: L,
    target: &mut W,
) -> Result<(), ProductFault>
    requires len { length (L.left entries) ≡ len }
    requires well { W.health target.old ≡ Well }
    ensures bytes { (naming : Naming) (all : List L.Item) → IsNaming (facts_of heap.now) naming → L.left entries ≡ all
        → WritesText (W.written target.old) (W.written target.new) result
        (text_of_lines (each_line (L.Item.line_at naming (size_of heap.now)) 0 all)) }
    ensures health { LeavesTarget result (W.health target.new) }
{
    for place in 0..len as u64 {
        let Some(entry) = entries.next_entry() else {
            return Ok(());
        };
        write_line(entry.line(alloc, heap, place), target)?;
    }
    Ok(())
}
