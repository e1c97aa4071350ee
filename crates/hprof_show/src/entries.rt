//! The constants, static fields and own fields of a class, each in a line.

ghost use Rattle.std.specs.Prelude.{◌≡◌, ℕ, List, IfOk, map, string_bytes};
ghost use Rattle.hprof_devices.specs.declared.health.Health.TheVariants.{Well};
ghost use Rattle.hprof_heap.specs.HeapFacts.{facts_of, size_of};
ghost use Rattle.hprof_naming.specs.ClassNames.{AreClassNames};
ghost use Rattle.hprof_lines.specs.Line.{each_line, text_of_lines};
ghost use Rattle.hprof_lines.specs.Stopping.{LeavesTarget, WritesText};
ghost use Rattle.hprof_describe.specs.Findings.{AreFindings, Findings};
ghost use Rattle.hprof_values.specs.Lists.{entries_of};
ghost use Rattle.hprof_show.specs.ClassLines.{constant_line, own_line, static_line};

use hprof_describe::value_text;
use hprof_devices::Target;
use hprof_engine::ProductFault;
use hprof_heap::Heap;
use hprof_lines::write_line;
use hprof_naming::{ClassNames, name_text, type_word};
use hprof_values::{Constant, EntryList, Field, ListEntry, Static};
use std::alloc::{AllocError, Global};

/// A part of a class, which is told in a line.
pub(crate) trait Part: Copy {
    // Its line, where it stands at that place.
    ghost line_at: { Findings → ℕ → Self → List ℕ };

    /// Returns the line, with its line feed. If memory runs out, the answer is `AllocError`.
    fn line(
        &self,
        alloc: Global,
        heap: &Heap,
        classes: &ClassNames,
        place: u64,
    ) -> Result<String, AllocError>
        requires { AreClassNames (facts_of heap.now) classes.now }
        ensures { (found : Findings) → AreFindings (size_of heap.now) (facts_of heap.now) found
            → IfOk result (λ line. string_bytes line ≡ line_at found place self.now) };
}

impl Part for Constant {
    ghost line_at = { constant_line };

    fn line(
        &self,
        alloc: Global,
        heap: &Heap,
        classes: &ClassNames,
        place: u64,
    ) -> Result<String, AllocError> {
        let value = value_text(alloc, heap, classes, self.value.basic, self.value.bits)?;
        format!(in alloc; "  constant {place} = {value}\n")
    }
}

impl Part for Static {
    ghost line_at = { static_line };

    fn line(
        &self,
        alloc: Global,
        heap: &Heap,
        classes: &ClassNames,
        place: u64,
    ) -> Result<String, AllocError> {
        let name = name_text(alloc, heap, self.name)?;
        let value = value_text(alloc, heap, classes, self.value.basic, self.value.bits)?;
        format!(in alloc; "  static {place} {name} = {value}\n")
    }
}

impl Part for Field {
    ghost line_at = { own_line };

    fn line(
        &self,
        alloc: Global,
        heap: &Heap,
        _classes: &ClassNames,
        place: u64,
    ) -> Result<String, AllocError> {
        let word = type_word(self.basic);
        let name = name_text(alloc, heap, self.name)?;
        format!(in alloc; "  own {place} {word} {name}\n")
    }
}

/// Writes the line of each entry of a list. If it stops, some of them were written, from the front.
pub(crate) fn write_entries<E: ListEntry + Part, W: Target>(
    alloc: Global,
    heap: &Heap,
    classes: &ClassNames,
    entries: &EntryList<'_, E>,
    target: &mut W,
) -> Result<(), ProductFault>
    requires classes { AreClassNames (facts_of heap.now) classes.now }
    requires well { W.health target.old ≡ Well }
    ensures bytes { (found : Findings) → AreFindings (size_of heap.now) (facts_of heap.now) found
        → WritesText (W.written target.old) (W.written target.new) result
        (text_of_lines (each_line (E.line_at found) 0 (map E.of (entries_of entries.now)))) }
    ensures health { LeavesTarget result (W.health target.new) }
{
    let mut place: u64 = 0;
    for entry in entries.iter() {
        write_line(entry.line(alloc, heap, classes, place), target)?;
        place += 1;
    }
    Ok(())
}
