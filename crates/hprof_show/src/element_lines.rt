//! The elements of an array of objects, each in a line.

ghost use Rattle.std.specs.Prelude.{◌≡◌, IfOk, length, string_bytes};
ghost use Rattle.hprof_devices.specs.declared.health.Health.TheVariants.{Well};
ghost use Rattle.hprof_heap.specs.HeapFacts.{facts_of, size_of};
ghost use Rattle.hprof_naming.specs.ClassNames.{AreClassNames};
ghost use Rattle.hprof_lines.specs.Stopping.{LeavesTarget, WritesText};
ghost use Rattle.hprof_values.specs.Lists.{identifiers_of};
ghost use Rattle.hprof_describe.specs.Findings.{AreFindings, Findings};
ghost use Rattle.hprof_show.specs.ElementLines.{element_line, elements_text, more_line, nulls_line, present_from, present_text, told_line};

use hprof_describe::reference_text;
use hprof_devices::Target;
use hprof_engine::ProductFault;
use hprof_heap::Heap;
use hprof_lines::write_line;
use hprof_naming::ClassNames;
use hprof_values::IdList;
use std::alloc::{AllocError, Global};

/// The number of elements that are told of an array of objects.
const MOST_ELEMENTS: usize = 100;

/// Returns the line of an element.
fn element_line(
    alloc: Global,
    heap: &Heap,
    classes: &ClassNames,
    place: u64,
    id: u64,
) -> Result<String, AllocError>
    requires { AreClassNames (facts_of heap.now) classes.now }
    ensures { (found : Findings) → AreFindings (size_of heap.now) (facts_of heap.now) found
        → IfOk result (λ line. string_bytes line ≡ element_line found (record { place = place; id = id })) }
{
    let value = reference_text(alloc, heap, classes, id)?;
    format!(in alloc; "  element {place} = {value}\n")
}

/// Returns the line that says how many of `count` are left out behind the first `most`, or an empty text if none is.
pub(crate) fn more_line(alloc: Global, most: usize, count: usize) -> Result<String, AllocError>
    ensures { IfOk result (λ line. string_bytes line ≡ more_line most count) }
{
    if count <= most {
        return Ok(String::new(alloc));
    }
    let more = count - most;
    format!(in alloc; "  .. {more} more\n")
}

/// Returns the line that says how many elements are 0, or an empty text if none is.
fn nulls_line(alloc: Global, count: usize) -> Result<String, AllocError>
    ensures { IfOk result (λ line. string_bytes line ≡ nulls_line count) }
{
    if count == 0 {
        return Ok(String::new(alloc));
    }
    format!(in alloc; "  {count} null\n")
}

/// Writes the line of an element, unless it is 0 or 100 others were told before.
fn write_element<W: Target>(
    alloc: Global,
    heap: &Heap,
    classes: &ClassNames,
    told: usize,
    place: u64,
    id: u64,
    target: &mut W,
) -> Result<(), ProductFault>
    requires classes { AreClassNames (facts_of heap.now) classes.now }
    requires well { W.health target.old ≡ Well }
    ensures bytes { (found : Findings) → AreFindings (size_of heap.now) (facts_of heap.now) found
        → WritesText (W.written target.old) (W.written target.new) result (told_line found told place id) }
    ensures health { LeavesTarget result (W.health target.new) }
{
    if id == 0 || told >= MOST_ELEMENTS {
        return Ok(());
    }
    write_line(element_line(alloc, heap, classes, place, id), target)
}

/// Writes the lines of the first 100 elements that are not 0, and returns how many elements are not 0. If it stops, some of the lines were
/// written, from the front.
fn write_present<W: Target>(
    alloc: Global,
    heap: &Heap,
    classes: &ClassNames,
    elements: &IdList<'_>,
    target: &mut W,
) -> Result<usize, ProductFault>
    requires classes { AreClassNames (facts_of heap.now) classes.now }
    requires well { W.health target.old ≡ Well }
    ensures bytes { (found : Findings) → AreFindings (size_of heap.now) (facts_of heap.now) found
        → WritesText (W.written target.old) (W.written target.new) result (present_text found (identifiers_of elements.now)) }
    ensures count { IfOk result (λ count. count ≡ length (present_from 0 (identifiers_of elements.now))) }
    ensures health { LeavesTarget result (W.health target.new) }
{
    let mut present: usize = 0;
    let mut place: u64 = 0;
    for id in elements.iter() {
        write_element(alloc, heap, classes, present, place, id, target)?;
        if id != 0 {
            present += 1;
        }
        place += 1;
    }
    Ok(present)
}

/// Writes the elements of an array of objects. If it stops, some of it was written, from the front.
pub(crate) fn write_elements<W: Target>(
    alloc: Global,
    heap: &Heap,
    classes: &ClassNames,
    elements: &IdList<'_>,
    target: &mut W,
) -> Result<(), ProductFault>
    requires classes { AreClassNames (facts_of heap.now) classes.now }
    requires well { W.health target.old ≡ Well }
    ensures bytes { (found : Findings) → AreFindings (size_of heap.now) (facts_of heap.now) found
        → WritesText (W.written target.old) (W.written target.new) result (elements_text found (identifiers_of elements.now)) }
    ensures health { LeavesTarget result (W.health target.new) }
{
    let present = write_present(alloc, heap, classes, elements, target)?;
    write_line(more_line(alloc, MOST_ELEMENTS, present), target)?;
    write_line(nulls_line(alloc, elements.len() - present), target)
}
