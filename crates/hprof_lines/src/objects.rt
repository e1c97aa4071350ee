//! The report `objects`: the objects of a class or a type, the largest first.

ghost use Rattle.std.specs.Prelude.{◌≡◌, ℕ, List, OnOk, string_bytes};
ghost use Rattle.hprof_devices.specs.declared.health.Health.TheVariants.{Well};
ghost use Rattle.hprof_heap.specs.HeapFacts.{facts_of, size_of};
ghost use Rattle.hprof_lines.specs.Passed.{EndsPassed};
ghost use Rattle.hprof_lines.specs.Stopping.{LeavesTarget, WritesText};
ghost use Rattle.hprof_lines.specs.ObjectsText.{IsObjectsText, object_line, objects_text};

use crate::lines::write_str;
use crate::passed::stop_of_pass;
use hprof_devices::Target;
use hprof_engine::ProductFault;
use hprof_heap::{Heap, holds_of_heap};
use hprof_histogram::{Kind, SizedObject, objects_of};
use hprof_passes::{InHeap, Objects, PassFault};
use hprof_text::push_id;
use itoa::Buffer;
use std::alloc::{AllocError, Global};

/// Sets `line` to the line of an object.
fn set_line(line: &mut String, object: SizedObject) -> Result<(), AllocError>
    ensures { OnOk result (string_bytes line.new ≡ object_line object) }
{
    let mut digits = Buffer::new();
    line.clear();
    line.push_str(digits.format(object.bytes))?;
    line.push(' ')?;
    push_id(line, object.id)?;
    line.push('\n')
}

/// Writes a line for each object. If it stops, some of them were written, from the front.
pub fn write_object_lines<W: Target>(
    alloc: Global,
    objects: &[SizedObject],
    target: &mut W,
) -> Result<(), ProductFault>
    requires { W.health target.old ≡ Well }
    ensures bytes { WritesText (W.written target.old) (W.written target.new) result (objects_text objects.now) }
    ensures health { LeavesTarget result (W.health target.new) }
{
    let mut line = String::new(alloc);
    let mut rest = objects;
    while let Some((object, after)) = rest.split_first() {
        set_line(&mut line, *object)?;
        write_str(&line, target)?;
        rest = after;
    }
    Ok(())
}

/// Writes the report `objects` on a class or a type: a line for each of its objects, with the bytes of the object, the largest first, and
/// nothing if there is none. The heap has all facts but the objects.
///
/// # Errors
///
/// - `Sink`: the writer failed or memory ran out. The bytes written are the beginning of the report.
/// - `Lost`: the objects cannot be gone through. Nothing was written.
pub fn write_objects_over<O: Objects, W: Target>(
    alloc: Global,
    heap: &Heap,
    objects: &O,
    kind: Kind,
    target: &mut W,
) -> Result<(), PassFault<ProductFault, O::Fault>>
    requires { W.health target.old ≡ Well }
    ensures { EndsPassed (O.make_up objects.now (size_of heap.now) (facts_of heap.now))
        (O.agree objects.now (size_of heap.now) (facts_of heap.now)) (O.tells objects.now (size_of heap.now) (facts_of heap.now))
        (λ all. IsObjectsText (size_of heap.now) all kind) W.written W.health target.old target.new result }
{
    let found = objects_of(alloc, heap, objects, kind).map_err(stop_of_pass)?;
    match write_object_lines(alloc, &found, target) {
        Ok(()) => Ok(()),
        Err(stop) => Err(PassFault::Sink(stop)),
    }
}

/// Writes the report `objects` on a class or a type of a heap with its objects in memory, as [`write_objects_over`] does. If the writer
/// fails or memory runs out, the bytes written are the beginning of the report.
pub fn write_objects<W: Target>(
    alloc: Global,
    heap: &Heap,
    kind: Kind,
    target: &mut W,
) -> Result<(), ProductFault>
    requires { W.health target.old ≡ Well }
    ensures bytes { (text : List ℕ) × IsObjectsText (size_of heap.now) (facts_of heap.now) kind text
        × WritesText (W.written target.old) (W.written target.new) result text }
    ensures health { LeavesTarget result (W.health target.new) }
{
    holds_of_heap(heap);
    match write_objects_over(alloc, heap, &InHeap, kind, target) {
        Ok(()) => Ok(()),
        Err(stop) => Err(stop.of_sink()),
    }
}
