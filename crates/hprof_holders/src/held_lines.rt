//! The lines of objects that a thread holds.

ghost use Rattle.std.specs.Prelude.{◌≡◌, ◌++◌, IfOk, string_bytes};
ghost use Rattle.std.specs.List.{flat_map};
ghost use Rattle.hprof_devices.specs.declared.health.Health.TheVariants.{Well};
ghost use Rattle.hprof_heap.specs.HeapFacts.{facts_of, size_of};
ghost use Rattle.hprof_naming.specs.ClassNames.{AreClassNames};
ghost use Rattle.hprof_lines.specs.Stopping.{LeavesTarget, WritesText};
ghost use Rattle.hprof_describe.specs.Findings.{AreFindings, Findings};
ghost use Rattle.hprof_holders.specs.PlaceLines.{new_place_line};
ghost use Rattle.hprof_holders.specs.ThreadsText.{elsewhere_text, held_line, place_line, same_place};

use crate::root_line::frame_words;
use hprof_describe::node_text;
use hprof_devices::Target;
use hprof_engine::ProductFault;
use hprof_heap::Heap;
use hprof_lines::write_line;
use hprof_naming::ClassNames;
use hprof_threads::{Held, Place};
use std::alloc::{AllocError, Global};

/// Returns the line of an object that is held.
fn held_line(
    alloc: Global,
    heap: &Heap,
    classes: &ClassNames,
    held: Held,
) -> Result<String, AllocError>
    requires { AreClassNames (facts_of heap.now) classes.now }
    ensures { (found : Findings) → AreFindings (size_of heap.now) (facts_of heap.now) found
        → IfOk result (λ line. string_bytes line ≡ held_line found held) }
{
    let node = node_text(alloc, heap, classes, held.object)?;
    format!(in alloc; "    {node}\n")
}

/// Returns the line of a place.
fn place_line(alloc: Global, place: Place) -> Result<String, AllocError>
    ensures { IfOk result (λ line. string_bytes line ≡ place_line place) }
{
    match place {
        Place::Frame(frame) => {
            let words = frame_words(alloc, frame)?;
            format!(in alloc; "  {words}\n")
        }
        Place::NativeStack => String::from_str(alloc, "  native stack\n"),
        Place::ThreadBlock => String::from_str(alloc, "  thread block\n"),
    }
}

/// Returns whether two places are one.
fn same_place(one: Place, other: Place) -> bool
    ensures { result ≡ same_place one other }
{
    match (one, other) {
        (Place::Frame(one), Place::Frame(other)) => one == other,
        (Place::NativeStack, Place::NativeStack) => true,
        (Place::ThreadBlock, Place::ThreadBlock) => true,
        _ => false,
    }
}

/// Returns the line of a place, or an empty text if the object before is held there too.
fn new_place_line(alloc: Global, before: Option<Place>, place: Place) -> Result<String, AllocError>
    ensures { IfOk result (λ line. string_bytes line ≡ new_place_line before place) }
{
    match before {
        Some(before) if same_place(before, place) => Ok(String::new(alloc)),
        _ => place_line(alloc, place),
    }
}

/// Returns the line of an object that is held, and before it the line of its place, unless the object before is held there too.
fn row_line(
    alloc: Global,
    heap: &Heap,
    classes: &ClassNames,
    before: Option<Place>,
    held: Held,
) -> Result<String, AllocError>
    requires { AreClassNames (facts_of heap.now) classes.now }
    ensures { (found : Findings) → AreFindings (size_of heap.now) (facts_of heap.now) found
        → IfOk result (λ line. string_bytes line ≡ new_place_line before held.place ++ held_line found held) }
{
    let place = new_place_line(alloc, before, held.place)?;
    let object = held_line(alloc, heap, classes, held)?;
    format!(in alloc; "{place}{object}")
}

/// Writes the line of each object. If it stops, some of them were written, from the front.
pub(crate) fn write_held<W: Target>(
    alloc: Global,
    heap: &Heap,
    classes: &ClassNames,
    rows: &[Held],
    target: &mut W,
) -> Result<(), ProductFault>
    requires classes { AreClassNames (facts_of heap.now) classes.now }
    requires well { W.health target.old ≡ Well }
    ensures bytes { (found : Findings) → AreFindings (size_of heap.now) (facts_of heap.now) found
        → WritesText (W.written target.old) (W.written target.new) result (flat_map (held_line found) rows.now) }
    ensures health { LeavesTarget result (W.health target.new) }
{
    let mut rest = rows;
    while let Some((held, after)) = rest.split_first() {
        write_line(held_line(alloc, heap, classes, *held), target)?;
        rest = after;
    }
    Ok(())
}

/// Writes what is held elsewhere than in frames of the stack: each place, and below it its objects. If it stops, some of it was written,
/// from the front.
pub(crate) fn write_elsewhere<W: Target>(
    alloc: Global,
    heap: &Heap,
    classes: &ClassNames,
    rows: &[Held],
    target: &mut W,
) -> Result<(), ProductFault>
    requires classes { AreClassNames (facts_of heap.now) classes.now }
    requires well { W.health target.old ≡ Well }
    ensures bytes { (found : Findings) → AreFindings (size_of heap.now) (facts_of heap.now) found
        → WritesText (W.written target.old) (W.written target.new) result (elsewhere_text found rows.now) }
    ensures health { LeavesTarget result (W.health target.new) }
{
    let mut before: Option<Place> = None;
    let mut rest = rows;
    while let Some((held, after)) = rest.split_first() {
        write_line(row_line(alloc, heap, classes, before, *held), target)?;
        before = Some(held.place);
        rest = after;
    }
    Ok(())
}
