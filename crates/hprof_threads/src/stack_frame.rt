//! Looking up stack frames, and the names of their classes, in a heap.

ghost use Rattle.std.specs.Prelude.{◌≡◌, find};
ghost use Rattle.std.specs.Option.{option_map};
ghost use Rattle.hprof_items.specs.FactValue.{value_of};
ghost use Rattle.hprof_rows.specs.declared.key.Key.TheVariants as keys;
ghost use Rattle.hprof_rows.specs.Key.{has_key};
ghost use Rattle.hprof_heap.specs.HeapFacts.{facts_of};
ghost use Rattle.hprof_threads.specs.Frames.{IsFrameFound, IsLoadFound};

use hprof_heap::Heap;
use hprof_items::Fact;

/// A stack frame: heapDumper.cpp, HPROF_FRAME, without the signature of its method.
#[derive(Clone, Copy, Debug, PartialEq, Eq)]
pub struct StackFrame {
    /// The identifier of the method's name.
    pub method: u64,
    /// The identifier of the source file's name; 0 for none.
    pub source: u64,
    /// The serial number of the class.
    pub class_serial: u32,
    /// The line number, above 0; -1 if it is unknown, -2 in a compiled method, -3 in a native method.
    pub line: i32,
}

/// Returns the fact with the key of a stack frame.
fn frame_fact(heap: &Heap, id: u64) -> Option<Fact<'_>>
    ensures { option_map value_of result ≡ find (has_key (keys.Frame id)) (facts_of heap.now) }
{
    heap.frame(id)
}

/// Returns the fact with the key of a loaded class.
fn load_fact(heap: &Heap, serial: u32) -> Option<Fact<'_>>
    ensures { option_map value_of result ≡ find (has_key (keys.Load serial)) (facts_of heap.now) }
{
    heap.load(serial)
}

/// Returns a stack frame, or `None` if the heap has no FRAME with this identifier.
pub(crate) fn find_frame(heap: &Heap, id: u64) -> Option<StackFrame>
    ensures { IsFrameFound (facts_of heap.now) id result }
{
    match frame_fact(heap, id)? {
        Fact::Frame {
            method,
            source,
            class_serial,
            line,
            ..
        } => Some(StackFrame {
            method,
            source,
            class_serial,
            line,
        }),
        // A fact with the key of a stack frame is its FRAME.
        _ => unreachable!(),
    }
}

/// Returns the identifier of the name of a loaded class, or `None` if the heap has no LOAD_CLASS with this serial number.
pub(crate) fn find_load(heap: &Heap, serial: u32) -> Option<u64>
    ensures { IsLoadFound (facts_of heap.now) serial result }
{
    match load_fact(heap, serial)? {
        Fact::Load { name, .. } => Some(name),
        // A fact with the key of a loaded class is its LOAD_CLASS.
        _ => unreachable!(),
    }
}
