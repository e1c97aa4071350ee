//! The report `text`: the text of an identifier.

ghost use Rattle.std.specs.Prelude.{◌≡◌, ℕ, List, IfOk, string_bytes};
ghost use Rattle.hprof_devices.specs.declared.health.Health.TheVariants.{Well};
ghost use Rattle.hprof_naming.specs.Texts.{text_value};
ghost use Rattle.hprof_naming.specs.Units.{units_of};
ghost use Rattle.hprof_heap.specs.HeapFacts.{facts_of, size_of};
ghost use Rattle.hprof_lines.specs.Line.{nothing_line};
ghost use Rattle.hprof_lines.specs.Stopping.{LeavesTarget, WritesText};
ghost use Rattle.hprof_reports.specs.TextReport.{IsTextLine, no_text_line, text_line, text_start, units_line};

use hprof_devices::Target;
use hprof_engine::ProductFault;
use hprof_heap::{Heap, holds_of_heap};
use hprof_lines::{nothing_line, write_line, write_str, write_units};
use hprof_naming::{Text, Units, text_of};
use std::alloc::{AllocError, Global};

/// Returns the beginning of a text's line: the number of its units.
fn text_start(alloc: Global, count: usize) -> Result<String, AllocError>
    ensures { IfOk result (λ start. string_bytes start ≡ text_start count) }
{
    format!(in alloc; "text {count} ")
}

/// Returns the line of a class or an object that has no text.
fn no_text_line(alloc: Global, id: u64) -> Result<String, AllocError>
    ensures { IfOk result (λ line. string_bytes line ≡ no_text_line id) }
{
    format!(in alloc; "no text at {id:x}\n")
}

/// Writes the line of a text. If it stops, some of it was written, from the front.
fn write_units_line<W: Target>(
    alloc: Global,
    units: Units<'_>,
    target: &mut W,
) -> Result<(), ProductFault>
    requires { W.health target.old ≡ Well }
    ensures bytes { WritesText (W.written target.old) (W.written target.new) result
        (units_line (units_of units.entry.coding units.entry.bytes.now)) }
    ensures health { LeavesTarget result (W.health target.new) }
{
    write_line(text_start(alloc, units.count()), target)?;
    write_units(alloc, units, target)?;
    write_str("\n", target)
}

/// Writes the line of a text, or that there is none. If it stops, some of it was written, from the front.
fn write_found<W: Target>(
    alloc: Global,
    id: u64,
    text: Text<'_>,
    target: &mut W,
) -> Result<(), ProductFault>
    requires { W.health target.old ≡ Well }
    ensures bytes { WritesText (W.written target.old) (W.written target.new) result (text_line id (text_value text.entry)) }
    ensures health { LeavesTarget result (W.health target.new) }
{
    match text {
        Text::Units(units) => write_units_line(alloc, units, target),
        Text::NoText => write_line(no_text_line(alloc, id), target),
        Text::Nothing => write_line(nothing_line(alloc, id), target),
    }
}

/// Writes the report `text` on an identifier: the number of units of its text, and the text in print, or that it has none. If the writer
/// fails or memory runs out, the bytes written are the beginning of the report.
pub fn write_text<W: Target>(
    alloc: Global,
    heap: &Heap,
    id: u64,
    target: &mut W,
) -> Result<(), ProductFault>
    requires { W.health target.old ≡ Well }
    ensures bytes { (line : List ℕ) × IsTextLine (size_of heap.now) (facts_of heap.now) id line
        × WritesText (W.written target.old) (W.written target.new) result line }
    ensures health { LeavesTarget result (W.health target.new) }
{
    holds_of_heap(heap);
    let text = text_of(alloc, heap, id)?;
    write_found(alloc, id, text, target)
}
