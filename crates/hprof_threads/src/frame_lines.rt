//! The lines of stack frames.

ghost use Rattle.std.specs.Prelude.{◌≡◌, ◌++◌, List, ℕ, IfOk, codes, string_bytes};
ghost use Rattle.hprof_text.specs.Identifier.{id_digits};
ghost use Rattle.hprof_heap.specs.HeapFacts.{facts_of};
ghost use Rattle.hprof_naming.specs.Naming.{IsNaming, Naming};
ghost use Rattle.hprof_threads.specs.Frames.{IsFrameLine, class_text, dotted, frame_line, line_text, place_text, source_text};

use crate::stack_frame::{StackFrame, find_frame, find_load};
use hprof_heap::{Heap, holds_of_heap};
use hprof_naming::name_text;
use std::alloc::{AllocError, Global};

/// The line number of a method that is compiled.
const COMPILED: i32 = -2;

/// The line number of a native method.
const NATIVE: i32 = -3;

/// Returns a text with `.` in the place of each `/`.
fn dotted(alloc: Global, text: &[u8]) -> Result<Vec<u8>, AllocError>
    ensures { IfOk result (λ bytes. bytes.items ≡ dotted text.now) }
{
    let mut bytes = Vec::with_capacity(alloc, text.len())?;
    for byte in text {
        bytes.push(if *byte == b'/' { b'.' } else { *byte })?;
    }
    Ok(bytes)
}

/// Returns the printed form of a name with `.` in the place of each `/`.
fn dotted_name(alloc: Global, heap: &Heap, name: u64) -> Result<String, AllocError>
    ensures { (naming : Naming) → IsNaming (facts_of heap.now) naming
        → IfOk result (λ text. string_bytes text ≡ dotted (naming.name_text name)) }
{
    let text = name_text(alloc, heap, name)?;
    let bytes = dotted(alloc, text.as_bytes())?;
    Ok(String::from_utf8(bytes).unwrap())
}

/// Returns the printed form of the class of a frame: its name, or `\?` if it was not loaded.
fn class_text(alloc: Global, heap: &Heap, class: Option<u64>) -> Result<String, AllocError>
    ensures { (naming : Naming) → IsNaming (facts_of heap.now) naming
        → IfOk result (λ text. string_bytes text ≡ class_text naming class) }
{
    match class {
        Some(name) => dotted_name(alloc, heap, name),
        None => String::from_str(alloc, "\\?"),
    }
}

/// Returns the printed form of the source file of a frame.
fn source_text(alloc: Global, heap: &Heap, source: u64) -> Result<String, AllocError>
    ensures { (naming : Naming) → IsNaming (facts_of heap.now) naming
        → IfOk result (λ text. string_bytes text ≡ source_text naming source) }
{
    if source == 0 {
        return String::from_str(alloc, "Unknown Source");
    }
    name_text(alloc, heap, source)
}

/// Returns what stands behind the source file of a frame with this line.
fn line_text(alloc: Global, line: i32) -> Result<String, AllocError>
    ensures { IfOk result (λ text. string_bytes text ≡ line_text line) }
{
    if line == COMPILED {
        return String::from_str(alloc, ", compiled");
    }
    if line > 0 {
        return format!(in alloc; ":{line}");
    }
    Ok(String::new(alloc))
}

/// Returns the place of a frame in its source.
fn place_text(alloc: Global, heap: &Heap, source: u64, line: i32) -> Result<String, AllocError>
    ensures { (naming : Naming) → IsNaming (facts_of heap.now) naming
        → IfOk result (λ text. string_bytes text ≡ place_text naming source line) }
{
    if line == NATIVE {
        return String::from_str(alloc, "Native Method");
    }
    let source = source_text(alloc, heap, source)?;
    let line = line_text(alloc, line)?;
    format!(in alloc; "{source}{line}")
}

/// Returns the line of a frame of a class with this name.
fn line_of(
    alloc: Global,
    heap: &Heap,
    frame: StackFrame,
    class: Option<u64>,
) -> Result<String, AllocError>
    ensures { (id : ℕ) (naming : Naming) → IsNaming (facts_of heap.now) naming
        → IfOk result (λ text. string_bytes text ≡ frame_line naming id (Some frame) class) }
{
    let class = class_text(alloc, heap, class)?;
    let method = name_text(alloc, heap, frame.method)?;
    let place = place_text(alloc, heap, frame.source, frame.line)?;
    format!(in alloc; "{class}.{method}({place})")
}

/// Returns the line of a frame that the heap does not have.
fn missing_frame(alloc: Global, id: u64) -> Result<String, AllocError>
    ensures { IfOk result (λ text. string_bytes text ≡ codes "\\?" ++ id_digits id) }
{
    format!(in alloc; "\\?{id:x}")
}

/// Returns the line of a stack frame, `<class>.<method>(<source>:<line>)`, as `java.lang.StackTraceElement` prints it. If memory runs out,
/// the answer is `AllocError`.
///
/// - The class: the name of the load with the frame's class serial, with `.` for `/`, or `\?` if there is no such load.
/// - The source: `Native Method` for line -3. Otherwise the name of the source file, or `Unknown Source` if that is 0; behind it `:` and a
///   line above 0, `, compiled` for line -2, and nothing for every other line.
/// - A frame without a FRAME: `\?` and its identifier, as a name that the heap does not have.
///
/// The fields are those of heapDumper.cpp, HPROF_FRAME. The signature of the method is not printed.
pub fn frame_line(alloc: Global, heap: &Heap, id: u64) -> Result<String, AllocError>
    ensures form { (naming : Naming) → IsNaming (facts_of heap.now) naming
        → IfOk result (λ text. IsFrameLine (facts_of heap.now) naming id (string_bytes text)) }
    ensures only { (naming : Naming) (line : List ℕ) → IsNaming (facts_of heap.now) naming → IsFrameLine (facts_of heap.now) naming id line
        → IfOk result (λ text. string_bytes text ≡ line) }
{
    holds_of_heap(heap);
    let Some(frame) = find_frame(heap, id) else {
        return missing_frame(alloc, id);
    };
    let class = find_load(heap, frame.class_serial);
    line_of(alloc, heap, frame, class)
}
