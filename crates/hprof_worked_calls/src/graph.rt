//! Calls on the heap of parts: the edges from an identifier, and the layout of a class.

ghost use Rattle.std.specs.Prelude.{◌≡◌, All};
ghost use Rattle.hprof_devices.specs.declared.health.Health.TheVariants.{Well};
ghost use Rattle.hprof_devices.specs.Device.{health_of};

use crate::streams::{Reader, Writer};
use hprof_devices::{Device, push_all};
use hprof_edges::{Edge, edges_of};
use hprof_engine::{NoSummaries, ToolFault, read_heap};
use hprof_heap::{Gatherer, Heap};
use hprof_layouts::{Layout, layout};
use hprof_naming::type_word;
use hprof_reports::via_word;
use hprof_stream::Limits;
use std::alloc::{AllocError, Global};

/// A question about a heap.
#[derive(Clone, Copy)]
pub enum Question {
    /// The edges from an identifier.
    Edges(u64),
    /// The layout of a class.
    Layout(u64),
}

/// Returns a line for each edge from an identifier.
fn lines_of_edges(alloc: Global, heap: &Heap, id: u64) -> Result<String, AllocError> {
    let mut lines = String::new(alloc);
    for edge in &edges_of(alloc, heap, id)? {
        let Edge {
            from,
            position,
            to,
            ..
        } = *edge;
        let word = via_word(edge.via);
        lines.push_str(&format!(in alloc; "{from:x} {word} {position} {to:x}\n")?)?;
    }
    Ok(lines)
}

/// Returns a line for each slot of a class, or one that says why it has none.
fn lines_of_layout(alloc: Global, heap: &Heap, class: u64) -> Result<String, AllocError> {
    let slots = match layout(alloc, heap, class)? {
        Layout::Known(slots) => slots,
        Layout::Missing(missing) => return format!(in alloc; "missing {missing:x}\n"),
        Layout::Cyclic => return String::from_str(alloc, "circle\n"),
    };
    let mut lines = String::new(alloc);
    for slot in &slots {
        let (class, name, word) = (slot.class, slot.name, type_word(slot.basic));
        lines.push_str(&format!(in alloc; "{class:x} {name:x} {word}\n")?)?;
    }
    Ok(lines)
}

/// Reads all parts into a heap, and writes the answer to a question.
pub(crate) fn ask(
    alloc: Global,
    question: Question,
    readers: &mut [Device<Reader<'_>>],
    target: &mut Device<Writer>,
    limits: Limits,
) -> Result<(), ToolFault>
    requires readers { All (λ reader. health_of reader ≡ Well) readers.old }
    requires writer { health_of target.old ≡ Well }
{
    let heap = read_heap(
        alloc,
        readers,
        limits,
        Gatherer::new(alloc),
        &NoSummaries,
        &mut (),
    )?;
    let lines = match question {
        Question::Edges(id) => lines_of_edges(alloc, &heap, id),
        Question::Layout(class) => lines_of_layout(alloc, &heap, class),
    };
    let Ok(lines) = lines else {
        return Err(ToolFault::OutOfMemory);
    };
    match push_all(lines.as_bytes(), target) {
        Ok(()) => Ok(()),
        Err(fault) => Err(ToolFault::Write(fault)),
    }
}
