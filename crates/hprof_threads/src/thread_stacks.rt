//! The stack of a thread.

ghost use Rattle.std.specs.Prelude.{◌≡◌, find};
ghost use Rattle.std.specs.Option.{option_map};
ghost use Rattle.hprof_values.specs.Lists.{identifiers_of};
ghost use Rattle.hprof_items.specs.FactValue.{value_of};
ghost use Rattle.hprof_rows.specs.declared.key.Key.TheVariants as keys;
ghost use Rattle.hprof_rows.specs.Key.{has_key};
ghost use Rattle.hprof_heap.specs.HeapFacts.{facts_of};
ghost use Rattle.hprof_threads.specs.Threads.{IsThreadStack, IsTraceFound};
ghost use Rattle.hprof_threads.specs.ThreadRoots.{AreThreadRoots};

use crate::thread_roots::ThreadRoots;
use hprof_heap::Heap;
use hprof_items::Fact;
use hprof_values::IdList;

/// Returns the fact with the key of a stack trace.
fn trace_fact(heap: &Heap, serial: u32) -> Option<Fact<'_>>
    ensures { option_map value_of result ≡ find (has_key (keys.Trace serial)) (facts_of heap.now) }
{
    heap.trace(serial)
}

/// Returns the frames of a stack trace, or `None` if the heap has no TRACE with this serial number.
fn find_trace(heap: &Heap, serial: u32) -> Option<IdList<'_>>
    ensures { IsTraceFound (facts_of heap.now) serial (option_map identifiers_of result) }
{
    match trace_fact(heap, serial)? {
        Fact::Trace { frames, .. } => Some(frames),
        // A fact with the key of a stack trace is its TRACE.
        _ => unreachable!(),
    }
}

/// Returns the stack of the thread with this serial number: the identifiers of its frames, the innermost first. They borrow from the heap.
///
/// They are the frames of the TRACE that the thread's root names: heapDumper.cpp, HPROF_GC_ROOT_THREAD_OBJ and HPROF_TRACE. Without a root
/// or a TRACE, the answer is `None`. The stack trace of START_THREAD is not read: it tells where the thread was started.
pub fn thread_stack<'a>(heap: &'a Heap, roots: &ThreadRoots, serial: u32) -> Option<IdList<'a>>
    ensures { AreThreadRoots (facts_of heap.now) roots.now
        → IsThreadStack (facts_of heap.now) serial (option_map identifiers_of result) }
{
    match roots.root_of(serial) {
        Some(root) => find_trace(heap, root.trace),
        None => None,
    }
}
