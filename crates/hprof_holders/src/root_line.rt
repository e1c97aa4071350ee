//! The line of a GC root.

ghost use Rattle.std.specs.Prelude.{◌≡◌, IfOk, string_bytes};
ghost use Rattle.hprof_holders.specs.RootLines.{frame_words, root_line};

use hprof_values::Root;
use std::alloc::{AllocError, Global};

/// The number that stands for no frame.
const NO_FRAME: u32 = u32::MAX;

/// Returns the words for a frame, or that there is none.
pub(crate) fn frame_words(alloc: Global, frame: u32) -> Result<String, AllocError>
    ensures { IfOk result (λ words. string_bytes words ≡ frame_words frame) }
{
    if frame == NO_FRAME {
        return String::from_str(alloc, "no frame");
    }
    format!(in alloc; "frame {frame}")
}

/// Returns the line of a GC root. If memory runs out, the answer is `AllocError`.
pub(crate) fn root_line(alloc: Global, root: Root) -> Result<String, AllocError>
    ensures { IfOk result (λ line. string_bytes line ≡ root_line root) }
{
    match root {
        Root::JniGlobal { reference, .. } => {
            format!(in alloc; "root JNI global {reference:x}\n")
        }
        Root::JniLocal { thread, frame, .. } => {
            let frame = frame_words(alloc, frame)?;
            format!(in alloc; "root JNI local thread {thread} {frame}\n")
        }
        Root::JavaFrame { thread, frame, .. } => {
            let frame = frame_words(alloc, frame)?;
            format!(in alloc; "root Java frame thread {thread} {frame}\n")
        }
        Root::NativeStack { thread, .. } => {
            format!(in alloc; "root native stack thread {thread}\n")
        }
        Root::Sticky { .. } => String::from_str(alloc, "root sticky class\n"),
        Root::Block { thread, .. } => format!(in alloc; "root thread block thread {thread}\n"),
        Root::Monitor { .. } => String::from_str(alloc, "root monitor used\n"),
        Root::ThreadObject { thread, trace, .. } => {
            format!(in alloc; "root thread object thread {thread} trace {trace}\n")
        }
        Root::Unknown { .. } => String::from_str(alloc, "root unknown\n"),
    }
}
