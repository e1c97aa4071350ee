//! The fields of an instance, each in a line.

ghost use Rattle.std.specs.Prelude.{◌≡◌, IfOk, string_bytes};
ghost use Rattle.hprof_devices.specs.declared.health.Health.TheVariants.{Well};
ghost use Rattle.hprof_heap.specs.HeapFacts.{facts_of, size_of};
ghost use Rattle.hprof_layouts.specs.Fields.{FieldsValue, AreFields};
ghost use Rattle.hprof_naming.specs.ClassNames.{AreClassNames};
ghost use Rattle.hprof_lines.specs.Stopping.{LeavesTarget, WritesText};
ghost use Rattle.hprof_describe.specs.Findings.{AreFindings, Findings};
ghost use Rattle.hprof_show.specs.FieldLines.{field_line, fields_from, fields_text, from_line};

use hprof_describe::value_text;
use hprof_devices::Target;
use hprof_engine::ProductFault;
use hprof_heap::{Heap, holds_of_heap};
use hprof_layouts::{FieldValue, Fields, fields};
use hprof_lines::{write_line, write_str};
use hprof_naming::{ClassNames, name_text};
use hprof_reports::no_fields_line;
use std::alloc::{AllocError, Global};

/// Returns the line of a field.
fn field_line(
    alloc: Global,
    heap: &Heap,
    classes: &ClassNames,
    place: usize,
    value: &FieldValue,
) -> Result<String, AllocError>
    requires { AreClassNames (facts_of heap.now) classes.now }
    ensures { (found : Findings) → AreFindings (size_of heap.now) (facts_of heap.now) found
        → IfOk result (λ line. string_bytes line ≡ field_line found place value.now) }
{
    let name = name_text(alloc, heap, value.name)?;
    let text = value_text(alloc, heap, classes, value.basic, value.bits)?;
    format!(in alloc; "  field {place} {name} = {text}\n")
}

/// Returns the line that names the class of the fields behind it, or an empty text if those before are of this class too.
fn from_line(
    alloc: Global,
    heap: &Heap,
    classes: &ClassNames,
    before: u64,
    class: u64,
) -> Result<String, AllocError>
    requires { AreClassNames (facts_of heap.now) classes.now }
    ensures { (found : Findings) → AreFindings (size_of heap.now) (facts_of heap.now) found
        → IfOk result (λ line. string_bytes line ≡ from_line found before class) }
{
    if class == before {
        return Ok(String::new(alloc));
    }
    let label = classes.label(alloc, heap, class)?;
    format!(in alloc; "  from {label}\n")
}

/// Writes the fields of an instance of a class. If it stops, some of them were written, from the front.
fn write_values<W: Target>(
    alloc: Global,
    heap: &Heap,
    classes: &ClassNames,
    class: u64,
    values: &[FieldValue],
    target: &mut W,
) -> Result<(), ProductFault>
    requires classes { AreClassNames (facts_of heap.now) classes.now }
    requires well { W.health target.old ≡ Well }
    ensures bytes { (found : Findings) → AreFindings (size_of heap.now) (facts_of heap.now) found
        → WritesText (W.written target.old) (W.written target.new) result (fields_from found class 0 values.now) }
    ensures health { LeavesTarget result (W.health target.new) }
{
    let mut before = class;
    for (place, value) in values.iter().enumerate() {
        write_line(from_line(alloc, heap, classes, before, value.class), target)?;
        write_line(field_line(alloc, heap, classes, place, value), target)?;
        before = value.class;
    }
    Ok(())
}

/// Writes the fields of an instance of a class, or why there are none. If it stops, some of it was written, from the front.
pub(crate) fn write_fields<W: Target>(
    alloc: Global,
    heap: &Heap,
    classes: &ClassNames,
    object: u64,
    class: u64,
    target: &mut W,
) -> Result<(), ProductFault>
    requires classes { AreClassNames (facts_of heap.now) classes.now }
    requires well { W.health target.old ≡ Well }
    ensures bytes { (found : Findings) (shown : FieldsValue) → AreFindings (size_of heap.now) (facts_of heap.now) found
        → AreFields (size_of heap.now) (facts_of heap.now) object shown
        → WritesText (W.written target.old) (W.written target.new) result (fields_text found class shown) }
    ensures health { LeavesTarget result (W.health target.new) }
{
    holds_of_heap(heap);
    match fields(alloc, heap, object)? {
        Fields::Values(values) => write_values(alloc, heap, classes, class, &values, target),
        why => {
            write_str("  ", target)?;
            write_line(no_fields_line(alloc, &why), target)
        }
    }
}
