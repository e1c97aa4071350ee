//! The lines of GC roots, each with its thread.

ghost use Rattle.std.specs.Prelude.{◌≡◌, IfOk, string_bytes};
ghost use Rattle.std.specs.Option.{option_map};
ghost use Rattle.hprof_values.specs.Lists.{identifiers_of};
ghost use Rattle.hprof_devices.specs.declared.health.Health.TheVariants.{Well};
ghost use Rattle.hprof_heap.specs.HeapFacts.{facts_of, size_of};
ghost use Rattle.hprof_naming.specs.ClassNames.{AreClassNames};
ghost use Rattle.hprof_threads.specs.Serials.{thread_of_root};
ghost use Rattle.hprof_lines.specs.Stopping.{LeavesTarget, WritesText};
ghost use Rattle.hprof_describe.specs.Findings.{AreFindings, Findings};
ghost use Rattle.hprof_holders.specs.ThreadFindings.{AreThreadFindings, ThreadFindings};
ghost use Rattle.hprof_holders.specs.RootsText.{at_frame, frame_of_root, frame_words_of, object_words};
ghost use Rattle.hprof_holders.specs.RootsText.{root_text, roots_text, thread_line, words_line};
ghost use Rattle.hprof_holders.specs.StackFrames.{frame_at};
ghost use Rattle.hprof_holders.specs.Views.{IsView};

use crate::root_line::root_line;
use crate::view::HeapView;
use hprof_describe::node_text;
use hprof_devices::Target;
use hprof_engine::ProductFault;
use hprof_heap::{Heap, holds_of_heap};
use hprof_lines::write_line;
use hprof_naming::ClassNames;
use hprof_threads::{frame_line, thread_object, thread_of_root, thread_stack};
use hprof_values::{IdList, Root};
use std::alloc::{AllocError, Global};

/// The number that stands for no frame: heapDumper.cpp, HPROF_GC_ROOT_JAVA_FRAME.
const NO_FRAME: u32 = u32::MAX;

/// Returns the number of the frame that a root names, or `None` if it names none.
fn frame_of_root(root: Root) -> Option<u32>
    ensures { result ≡ frame_of_root root }
{
    match root {
        Root::JniLocal { frame, .. } if frame != NO_FRAME => Some(frame),
        Root::JavaFrame { frame, .. } if frame != NO_FRAME => Some(frame),
        _ => None,
    }
}

/// Returns an object in a line, or `None` if it is 0.
fn words_of_object(
    alloc: Global,
    heap: &Heap,
    classes: &ClassNames,
    object: u64,
) -> Result<Option<String>, AllocError>
    requires { AreClassNames (facts_of heap.now) classes.now }
    ensures { (found : Findings) → AreFindings (size_of heap.now) (facts_of heap.now) found
        → IfOk result (λ words. option_map string_bytes words ≡ object_words found object) }
{
    if object == 0 {
        return Ok(None);
    }
    let node = node_text(alloc, heap, classes, object)?;
    Ok(Some(node))
}

/// Returns the object of a thread in a line, or `None` if it has none.
fn object_words(
    alloc: Global,
    view: HeapView<'_>,
    serial: u32,
) -> Result<Option<String>, AllocError>
    requires { IsView view }
    ensures { (found : Findings) (threads : ThreadFindings)
        → AreFindings (size_of view.entry.heap.now) (facts_of view.entry.heap.now) found
        → AreThreadFindings (facts_of view.entry.heap.now) found.naming threads
        → IfOk result (λ words. option_map string_bytes words ≡ object_words found (threads.object serial)) }
{
    holds_of_heap(view.heap);
    let object = thread_object(view.heap, view.threads, serial);
    words_of_object(alloc, view.heap, view.classes, object)
}

/// Returns the frame with a number in a stack, or `None` if no frame is asked for or the stack does not have it.
fn frame_at(frames: Option<IdList<'_>>, number: Option<u32>) -> Option<u64>
    ensures { result ≡ frame_at (option_map identifiers_of frames.entry) number }
{
    let number = number?;
    let frames = frames?;
    frames.get(number as usize)
}

/// Returns a frame in a line, or `None` if there is none.
fn words_of_frame(
    alloc: Global,
    heap: &Heap,
    frame: Option<u64>,
) -> Result<Option<String>, AllocError>
    ensures { (found : Findings) (threads : ThreadFindings) → AreFindings (size_of heap.now) (facts_of heap.now) found
        → AreThreadFindings (facts_of heap.now) found.naming threads
        → IfOk result (λ words. option_map string_bytes words ≡ at_frame threads frame) }
{
    let Some(frame) = frame else {
        return Ok(None);
    };
    let line = frame_line(alloc, heap, frame)?;
    let words = format!(in alloc; "at {line}")?;
    Ok(Some(words))
}

/// Returns a frame of a thread's stack in a line, or `None` if no frame is asked for or the stack does not have it.
fn frame_words(
    alloc: Global,
    view: HeapView<'_>,
    serial: u32,
    number: Option<u32>,
) -> Result<Option<String>, AllocError>
    requires { IsView view }
    ensures { (found : Findings) (threads : ThreadFindings)
        → AreFindings (size_of view.entry.heap.now) (facts_of view.entry.heap.now) found
        → AreThreadFindings (facts_of view.entry.heap.now) found.naming threads
        → IfOk result (λ words. option_map string_bytes words ≡ frame_words_of threads serial number) }
{
    holds_of_heap(view.heap);
    let frames = thread_stack(view.heap, view.threads, serial);
    words_of_frame(alloc, view.heap, frame_at(frames, number))
}

/// Returns the line below a root: an object and a frame, or the one that there is, or an empty text.
fn words_line(
    alloc: Global,
    object: Option<String>,
    frame: Option<String>,
) -> Result<String, AllocError>
    ensures { IfOk result (λ line. string_bytes line ≡ words_line (option_map string_bytes object) (option_map string_bytes frame)) }
{
    match (object, frame) {
        (Some(object), Some(frame)) => format!(in alloc; "  {object} {frame}\n"),
        (Some(object), None) => format!(in alloc; "  {object}\n"),
        (None, Some(frame)) => format!(in alloc; "  {frame}\n"),
        (None, None) => Ok(String::new(alloc)),
    }
}

/// Returns the line of a root's thread, or an empty text if it has none.
fn thread_line(alloc: Global, view: HeapView<'_>, root: Root) -> Result<String, AllocError>
    requires { IsView view }
    ensures { (found : Findings) (threads : ThreadFindings)
        → AreFindings (size_of view.entry.heap.now) (facts_of view.entry.heap.now) found
        → AreThreadFindings (facts_of view.entry.heap.now) found.naming threads
        → IfOk result (λ line. string_bytes line ≡ thread_line found threads root (thread_of_root root)) }
{
    let Some(serial) = thread_of_root(root) else {
        return Ok(String::new(alloc));
    };
    let object = object_words(alloc, view, serial)?;
    let frame = frame_words(alloc, view, serial, frame_of_root(root))?;
    words_line(alloc, object, frame)
}

/// Writes the line of a GC root, and below it that of its thread. If it stops, some of it was written, from the front.
fn write_root<W: Target>(
    alloc: Global,
    view: HeapView<'_>,
    root: Root,
    target: &mut W,
) -> Result<(), ProductFault>
    requires view { IsView view }
    requires well { W.health target.old ≡ Well }
    ensures bytes { (found : Findings) (threads : ThreadFindings)
        → AreFindings (size_of view.entry.heap.now) (facts_of view.entry.heap.now) found
        → AreThreadFindings (facts_of view.entry.heap.now) found.naming threads
        → WritesText (W.written target.old) (W.written target.new) result (root_text found threads root) }
    ensures health { LeavesTarget result (W.health target.new) }
{
    write_line(root_line(alloc, root), target)?;
    write_line(thread_line(alloc, view, root), target)
}

/// Writes the line of each GC root, and below it that of its thread. If it stops, some of them were written, from the front.
pub fn write_roots<W: Target>(
    alloc: Global,
    view: HeapView<'_>,
    roots: &[Root],
    target: &mut W,
) -> Result<(), ProductFault>
    requires view { IsView view }
    requires well { W.health target.old ≡ Well }
    ensures bytes { (found : Findings) (threads : ThreadFindings)
        → AreFindings (size_of view.entry.heap.now) (facts_of view.entry.heap.now) found
        → AreThreadFindings (facts_of view.entry.heap.now) found.naming threads
        → WritesText (W.written target.old) (W.written target.new) result (roots_text found threads roots.now) }
    ensures health { LeavesTarget result (W.health target.new) }
{
    let mut rest = roots;
    while let Some((root, after)) = rest.split_first() {
        write_root(alloc, view, *root, target)?;
        rest = after;
    }
    Ok(())
}
