//! The report `threads`: each thread, its stack, and the objects that its frames hold.

ghost use Rattle.std.specs.Prelude.{◌≡◌, ℕ, List, ◌++◌, IfOk, codes, length, string_bytes};
ghost use Rattle.std.specs.List.{filter, flat_map};
ghost use Rattle.std.specs.Option.{option_map};
ghost use Rattle.hprof_values.specs.Lists.{identifiers_of};
ghost use Rattle.hprof_devices.specs.declared.health.Health.TheVariants.{Well};
ghost use Rattle.hprof_heap.specs.HeapFacts.{facts_of, size_of};
ghost use Rattle.hprof_naming.specs.ClassNames.{AreClassNames};
ghost use Rattle.hprof_threads.specs.ThreadRoots.{AreThreadRoots};
ghost use Rattle.hprof_threads.specs.Held.{AreHeld, AreHeldBy};
ghost use Rattle.hprof_threads.specs.declared.held.Held.{Held};
ghost use Rattle.hprof_lines.specs.Stopping.{LeavesTarget, WritesText};
ghost use Rattle.hprof_describe.specs.Findings.{AreFindings, Findings};
ghost use Rattle.hprof_holders.specs.ThreadFindings.{AreThreadFindings, ThreadFindings, frames_in};
ghost use Rattle.hprof_holders.specs.ThreadsText.{IsThreadsText, elsewhere_text, frame_text};
ghost use Rattle.hprof_holders.specs.ThreadsText.{head_line, is_elsewhere, stack_text, thread_text};

use crate::held_lines::{write_elsewhere, write_held};
use crate::held_rows::{rows_elsewhere, rows_in_frame};
use hprof_describe::node_text;
use hprof_devices::Target;
use hprof_engine::ProductFault;
use hprof_heap::{Heap, holds_of_heap};
use hprof_lines::write_line;
use hprof_naming::ClassNames;
use hprof_threads::{
    Held, HeldObjects, ThreadRoots, frame_line, thread_object, thread_serials, thread_stack,
};
use hprof_values::IdList;
use std::alloc::{AllocError, Global};

/// Returns the line of a thread with that object: its serial number, and the object if it is not 0.
fn object_line(
    alloc: Global,
    heap: &Heap,
    classes: &ClassNames,
    serial: u32,
    object: u64,
) -> Result<String, AllocError>
    requires { AreClassNames (facts_of heap.now) classes.now }
    ensures { (found : Findings) (threads : ThreadFindings) → AreFindings (size_of heap.now) (facts_of heap.now) found
        → threads.object serial ≡ object → IfOk result (λ line. string_bytes line ≡ head_line found threads serial) }
{
    if object == 0 {
        return format!(in alloc; "thread {serial}\n");
    }
    let node = node_text(alloc, heap, classes, object)?;
    format!(in alloc; "thread {serial} {node}\n")
}

/// Returns the line of a thread: its serial number, and its object if it has one.
fn head_line(
    alloc: Global,
    heap: &Heap,
    roots: &ThreadRoots,
    classes: &ClassNames,
    serial: u32,
) -> Result<String, AllocError>
    requires classes { AreClassNames (facts_of heap.now) classes.now }
    requires roots { AreThreadRoots (facts_of heap.now) roots.now }
    ensures { (found : Findings) (threads : ThreadFindings) → AreFindings (size_of heap.now) (facts_of heap.now) found
        → AreThreadFindings (facts_of heap.now) found.naming threads
        → IfOk result (λ line. string_bytes line ≡ head_line found threads serial) }
{
    holds_of_heap(heap);
    let object = thread_object(heap, roots, serial);
    object_line(alloc, heap, classes, serial, object)
}

/// Returns the line of a frame of a stack.
fn at_line(alloc: Global, heap: &Heap, frame: u64) -> Result<String, AllocError>
    ensures { (found : Findings) (threads : ThreadFindings) → AreFindings (size_of heap.now) (facts_of heap.now) found
        → AreThreadFindings (facts_of heap.now) found.naming threads
        → IfOk result (λ line. string_bytes line ≡ codes "  at " ++ threads.frame_line frame ++ codes "\n") }
{
    let line = frame_line(alloc, heap, frame)?;
    format!(in alloc; "  at {line}\n")
}

/// Writes the line of a frame, and below it the objects that it holds. If it stops, some of it was written, from the front.
fn write_frame<W: Target>(
    alloc: Global,
    heap: &Heap,
    classes: &ClassNames,
    rows: &[Held],
    number: u64,
    frame: u64,
    target: &mut W,
) -> Result<(), ProductFault>
    requires classes { AreClassNames (facts_of heap.now) classes.now }
    requires well { W.health target.old ≡ Well }
    ensures bytes { (found : Findings) (threads : ThreadFindings) (serial : ℕ) → AreFindings (size_of heap.now) (facts_of heap.now) found
        → AreThreadFindings (facts_of heap.now) found.naming threads → AreHeldBy (facts_of heap.now) serial rows.now
        → WritesText (W.written target.old) (W.written target.new) result (frame_text found threads rows.now number frame) }
    ensures health { LeavesTarget result (W.health target.new) }
{
    write_line(at_line(alloc, heap, frame), target)?;
    write_held(alloc, heap, classes, rows_in_frame(rows, number), target)
}

/// Writes the frames of a stack, and below each the objects that it holds. If it stops, some of it was written, from the front.
fn write_stack<W: Target>(
    alloc: Global,
    heap: &Heap,
    classes: &ClassNames,
    frames: IdList<'_>,
    rows: &[Held],
    target: &mut W,
) -> Result<(), ProductFault>
    requires classes { AreClassNames (facts_of heap.now) classes.now }
    requires well { W.health target.old ≡ Well }
    ensures bytes { (found : Findings) (threads : ThreadFindings) (serial : ℕ) → AreFindings (size_of heap.now) (facts_of heap.now) found
        → AreThreadFindings (facts_of heap.now) found.naming threads → AreHeldBy (facts_of heap.now) serial rows.now
        → WritesText (W.written target.old) (W.written target.new) result
        (stack_text found threads 0 rows.now (identifiers_of frames.entry)) }
    ensures health { LeavesTarget result (W.health target.new) }
{
    let mut number: u64 = 0;
    for frame in frames.iter() {
        write_frame(alloc, heap, classes, rows, number, frame, target)?;
        number += 1;
    }
    Ok(())
}

/// Writes the frames of a stack, and what is held elsewhere. If it stops, some of it was written, from the front.
fn write_framed<W: Target>(
    alloc: Global,
    heap: &Heap,
    classes: &ClassNames,
    frames: IdList<'_>,
    rows: &[Held],
    target: &mut W,
) -> Result<(), ProductFault>
    requires classes { AreClassNames (facts_of heap.now) classes.now }
    requires well { W.health target.old ≡ Well }
    ensures bytes { (found : Findings) (threads : ThreadFindings) (serial : ℕ) → AreFindings (size_of heap.now) (facts_of heap.now) found
        → AreThreadFindings (facts_of heap.now) found.naming threads → AreHeldBy (facts_of heap.now) serial rows.now
        → let stack = identifiers_of frames.entry in WritesText (W.written target.old) (W.written target.new) result
        (stack_text found threads 0 rows.now stack ++ elsewhere_text found (filter (is_elsewhere (length stack)) rows.now)) }
    ensures health { LeavesTarget result (W.health target.new) }
{
    let count = frames.len() as u64;
    write_stack(alloc, heap, classes, frames, rows, target)?;
    let rest = rows_elsewhere(rows, count);
    write_elsewhere(alloc, heap, classes, rest, target)
}

/// Writes the stack of a thread, if it has one, and what is held elsewhere. If it stops, some of it was written, from the front.
fn write_places<W: Target>(
    alloc: Global,
    heap: &Heap,
    classes: &ClassNames,
    frames: Option<IdList<'_>>,
    rows: &[Held],
    target: &mut W,
) -> Result<(), ProductFault>
    requires classes { AreClassNames (facts_of heap.now) classes.now }
    requires well { W.health target.old ≡ Well }
    ensures bytes { (found : Findings) (threads : ThreadFindings) (serial : ℕ) → AreFindings (size_of heap.now) (facts_of heap.now) found
        → AreThreadFindings (facts_of heap.now) found.naming threads → AreHeldBy (facts_of heap.now) serial rows.now
        → let stack = frames_in (option_map identifiers_of frames.entry) in WritesText (W.written target.old) (W.written target.new) result
        (stack_text found threads 0 rows.now stack ++ elsewhere_text found (filter (is_elsewhere (length stack)) rows.now)) }
    ensures health { LeavesTarget result (W.health target.new) }
{
    match frames {
        Some(frames) => write_framed(alloc, heap, classes, frames, rows, target),
        None => {
            let rest = rows_elsewhere(rows, 0);
            write_elsewhere(alloc, heap, classes, rest, target)
        }
    }
}

/// Writes a thread that holds these rows: its line, its stack, and what is held elsewhere. If it stops, some of it was written, from the
/// front.
fn write_thread<W: Target>(
    alloc: Global,
    heap: &Heap,
    roots: &ThreadRoots,
    classes: &ClassNames,
    serial: u32,
    rows: &[Held],
    target: &mut W,
) -> Result<(), ProductFault>
    requires classes { AreClassNames (facts_of heap.now) classes.now }
    requires roots { AreThreadRoots (facts_of heap.now) roots.now }
    requires well { W.health target.old ≡ Well }
    ensures bytes { (found : Findings) (threads : ThreadFindings) → AreFindings (size_of heap.now) (facts_of heap.now) found
        → AreThreadFindings (facts_of heap.now) found.naming threads → AreHeldBy (facts_of heap.now) serial rows.now
        → WritesText (W.written target.old) (W.written target.new) result (thread_text found threads serial rows.now) }
    ensures health { LeavesTarget result (W.health target.new) }
{
    holds_of_heap(heap);
    let frames = thread_stack(heap, roots, serial);
    write_line(head_line(alloc, heap, roots, classes, serial), target)?;
    write_places(alloc, heap, classes, frames, rows, target)
}

/// Writes each of the threads. If it stops, some of them were written, from the front.
fn write_all<W: Target>(
    alloc: Global,
    heap: &Heap,
    roots: &ThreadRoots,
    classes: &ClassNames,
    held: &HeldObjects,
    serials: &[u32],
    target: &mut W,
) -> Result<(), ProductFault>
    requires classes { AreClassNames (facts_of heap.now) classes.now }
    requires roots { AreThreadRoots (facts_of heap.now) roots.now }
    requires held { AreHeld (facts_of heap.now) held.now.rows.items }
    requires well { W.health target.old ≡ Well }
    ensures bytes { (found : Findings) (threads : ThreadFindings) (rows : ℕ → List Held)
        → AreFindings (size_of heap.now) (facts_of heap.now) found → AreThreadFindings (facts_of heap.now) found.naming threads
        → ((serial : ℕ) → AreHeldBy (facts_of heap.now) serial (rows serial))
        → WritesText (W.written target.old) (W.written target.new) result
        (flat_map (λ serial. thread_text found threads serial (rows serial)) serials.now) }
    ensures health { LeavesTarget result (W.health target.new) }
{
    let mut rest = serials;
    while let Some((serial, after)) = rest.split_first() {
        let rows = held.held_by_thread(*serial);
        write_thread(alloc, heap, roots, classes, *serial, rows, target)?;
        rest = after;
    }
    Ok(())
}

/// Writes the report `threads`. `roots` are the roots of the heap's threads, and `classes` the names of its classes.
///
/// The report has for each thread, by serial number, its object, the frames of its stack, the innermost first, below each the objects that
/// it holds, and then what the thread holds elsewhere. If the writer fails or memory runs out, the bytes written are the beginning of the
/// report.
pub fn write_threads<W: Target>(
    alloc: Global,
    heap: &Heap,
    roots: &ThreadRoots,
    classes: &ClassNames,
    target: &mut W,
) -> Result<(), ProductFault>
    requires classes { AreClassNames (facts_of heap.now) classes.now }
    requires roots { AreThreadRoots (facts_of heap.now) roots.now }
    requires well { W.health target.old ≡ Well }
    ensures bytes { (text : List ℕ) × IsThreadsText (size_of heap.now) (facts_of heap.now) text
        × WritesText (W.written target.old) (W.written target.new) result text }
    ensures health { LeavesTarget result (W.health target.new) }
{
    holds_of_heap(heap);
    let held = HeldObjects::of(alloc, heap)?;
    let serials = thread_serials(alloc, heap)?;
    write_all(alloc, heap, roots, classes, &held, &serials, target)
}
