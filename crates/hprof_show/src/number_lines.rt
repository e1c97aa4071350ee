//! The elements of an array of numbers, truth values or characters.

ghost use Rattle.std.specs.Prelude.{◌≡◌, ◌+◌, ◌*◌, ◌/◌, ◌<◌, ◌≤◌, IfOk, length, string_bytes};
ghost use Rattle.hprof_devices.specs.declared.health.Health.TheVariants.{Well};
ghost use Rattle.hprof_values.specs.Basic.{width_of_basic};
ghost use Rattle.hprof_heap.specs.HeapFacts.{facts_of, size_of};
ghost use Rattle.hprof_naming.specs.ClassNames.{AreClassNames};
ghost use Rattle.hprof_threads.specs.ThreadNames.{units_value};
ghost use Rattle.hprof_lines.specs.Stopping.{LeavesTarget, WritesText};
ghost use Rattle.hprof_describe.specs.Findings.{AreFindings, Findings};
ghost use Rattle.hprof_show.specs.NumberLines.{number_text, numbers_text, quoted_line, row_line, rows_text, values_text};

use crate::element_lines::more_line;
use hprof_describe::{quoted, value_text};
use hprof_devices::Target;
use hprof_engine::ProductFault;
use hprof_heap::{Heap, id_size};
use hprof_lines::write_line;
use hprof_naming::{ClassNames, Coding, Units};
use hprof_values::Basic;
use hprof_values::number::bits_at;
use std::alloc::{AllocError, Global};

/// The number of elements of an array of numbers that are told.
const MOST_NUMBERS: usize = 256;

/// The number of elements in a line.
const ROW_LEN: usize = 16;

/// Returns the element at a place, behind a space.
fn number_text(
    alloc: Global,
    heap: &Heap,
    classes: &ClassNames,
    elem: Basic,
    bytes: &[u8],
    place: usize,
) -> Result<String, AllocError>
    requires classes { AreClassNames (facts_of heap.now) classes.now }
    requires within { place < length bytes.now / width_of_basic (size_of heap.now) elem }
    ensures { (found : Findings) → AreFindings (size_of heap.now) (facts_of heap.now) found
        → IfOk result (λ text. string_bytes text ≡ number_text found elem bytes.now place) }
{
    let ids = id_size(heap);
    let (_, rest) = bytes.split_at(place * elem.width(ids) as usize);
    let value = value_text(alloc, heap, classes, elem, bits_at(rest, elem, ids))?;
    format!(in alloc; " {value}")
}

/// Returns the line of at most 16 elements from a place on, of which there are `count`.
fn row_line(
    alloc: Global,
    heap: &Heap,
    classes: &ClassNames,
    elem: Basic,
    bytes: &[u8],
    count: usize,
    place: usize,
) -> Result<String, AllocError>
    requires classes { AreClassNames (facts_of heap.now) classes.now }
    requires within { count ≤ length bytes.now / width_of_basic (size_of heap.now) elem }
    requires place { place ≤ count }
    ensures { (found : Findings) → AreFindings (size_of heap.now) (facts_of heap.now) found
        → IfOk result (λ line. string_bytes line ≡ row_line found elem bytes.now count place) }
{
    let mut line = format!(in alloc; "  {place} =")?;
    for at in place..place + (count - place).min(ROW_LEN) {
        let number = number_text(alloc, heap, classes, elem, bytes, at)?;
        line.push_str(&number)?;
    }
    line.push_str("\n")?;
    Ok(line)
}

/// Writes the first `count` elements, 16 a line. If it stops, some of the lines were written, from the front.
fn write_rows<W: Target>(
    alloc: Global,
    heap: &Heap,
    classes: &ClassNames,
    elem: Basic,
    bytes: &[u8],
    count: usize,
    target: &mut W,
) -> Result<(), ProductFault>
    requires classes { AreClassNames (facts_of heap.now) classes.now }
    requires within { count ≤ length bytes.now / width_of_basic (size_of heap.now) elem }
    requires few { count ≤ 256 }
    requires well { W.health target.old ≡ Well }
    ensures bytes { (found : Findings) → AreFindings (size_of heap.now) (facts_of heap.now) found
        → WritesText (W.written target.old) (W.written target.new) result (rows_text found elem bytes.now count) }
    ensures health { LeavesTarget result (W.health target.new) }
{
    for row in 0..(count + 15) / ROW_LEN {
        let line = row_line(alloc, heap, classes, elem, bytes, count, row * ROW_LEN);
        write_line(line, target)?;
    }
    Ok(())
}

/// Writes the first 256 elements, and how many more there are. If it stops, some of it was written, from the front.
fn write_numbers<W: Target>(
    alloc: Global,
    heap: &Heap,
    classes: &ClassNames,
    elem: Basic,
    bytes: &[u8],
    target: &mut W,
) -> Result<(), ProductFault>
    requires classes { AreClassNames (facts_of heap.now) classes.now }
    requires well { W.health target.old ≡ Well }
    ensures bytes { (found : Findings) → AreFindings (size_of heap.now) (facts_of heap.now) found
        → WritesText (W.written target.old) (W.written target.new) result (numbers_text found elem bytes.now) }
    ensures health { LeavesTarget result (W.health target.new) }
{
    let count = bytes.len() / elem.width(id_size(heap)) as usize;
    let told = count.min(MOST_NUMBERS);
    write_rows(alloc, heap, classes, elem, bytes, told, target)?;
    write_line(more_line(alloc, MOST_NUMBERS, count), target)
}

/// Returns the line of a text in quotes, or an empty text if it has no units.
fn quoted_line(alloc: Global, units: Units<'_>) -> Result<String, AllocError>
    ensures { IfOk result (λ line. string_bytes line ≡ quoted_line (units_value units.entry)) }
{
    if units.count() == 0 {
        return Ok(String::new(alloc));
    }
    let text = quoted(alloc, units)?;
    format!(in alloc; "  text {text}\n")
}

/// Writes the elements of an array of numbers, truth values or characters. If it stops, some of it was written, from the front.
pub(crate) fn write_array_values<W: Target>(
    alloc: Global,
    heap: &Heap,
    classes: &ClassNames,
    elem: Basic,
    bytes: &[u8],
    target: &mut W,
) -> Result<(), ProductFault>
    requires classes { AreClassNames (facts_of heap.now) classes.now }
    requires well { W.health target.old ≡ Well }
    ensures bytes { (found : Findings) → AreFindings (size_of heap.now) (facts_of heap.now) found
        → WritesText (W.written target.old) (W.written target.new) result (values_text found elem bytes.now) }
    ensures health { LeavesTarget result (W.health target.new) }
{
    let chars = Units {
        bytes,
        coding: Coding::Chars,
    };
    let latin = Units {
        bytes,
        coding: Coding::Latin1,
    };
    match elem {
        Basic::Char => write_line(quoted_line(alloc, chars), target),
        Basic::Byte => {
            write_line(quoted_line(alloc, latin), target)?;
            write_numbers(alloc, heap, classes, elem, bytes, target)
        }
        _ => write_numbers(alloc, heap, classes, elem, bytes, target),
    }
}
