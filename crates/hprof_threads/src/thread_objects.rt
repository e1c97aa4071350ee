//! The object of a thread.

ghost use Rattle.std.specs.Prelude.{◌≡◌, find};
ghost use Rattle.std.specs.Option.{option_map};
ghost use Rattle.hprof_items.specs.FactValue.{value_of};
ghost use Rattle.hprof_rows.specs.declared.key.Key.TheVariants as keys;
ghost use Rattle.hprof_rows.specs.Key.{has_key};
ghost use Rattle.hprof_heap.specs.HeapFacts.{facts_of};
ghost use Rattle.hprof_threads.specs.Threads.{IsStartFound, IsThreadObject, object_of_root, object_of_start};
ghost use Rattle.hprof_threads.specs.ThreadRoots.{AreThreadRoots};

use crate::thread_root::ThreadRoot;
use crate::thread_roots::ThreadRoots;
use hprof_heap::Heap;
use hprof_items::Fact;

/// Returns the fact with the key of a thread that was started.
fn start_fact(heap: &Heap, serial: u32) -> Option<Fact<'_>>
    ensures { option_map value_of result ≡ find (has_key (keys.Thread serial)) (facts_of heap.now) }
{
    heap.thread(serial)
}

/// Returns the object of a thread that was started, or `None` if the heap has no START_THREAD of it.
fn find_start(heap: &Heap, serial: u32) -> Option<u64>
    ensures { IsStartFound (facts_of heap.now) serial result }
{
    match start_fact(heap, serial)? {
        Fact::Start { object, .. } => Some(object),
        // A fact with the key of a thread is its START_THREAD.
        _ => unreachable!(),
    }
}

/// Returns the object of a root, or 0 without a root.
fn object_of_root(root: Option<ThreadRoot>) -> u64
    ensures { result ≡ object_of_root root }
{
    match root {
        Some(root) => root.object,
        None => 0,
    }
}

/// Returns the object of START_THREAD, or 0 without one.
fn object_of_start(start: Option<u64>) -> u64
    ensures { result ≡ object_of_start start }
{
    start.unwrap_or(0)
}

/// Returns the object of the thread with this serial number, or 0 if it has none.
///
/// It is the object of the thread's root. If there is no root or its object is 0, it is the object of START_THREAD: heapDumper.cpp,
/// HPROF_GC_ROOT_THREAD_OBJ and HPROF_START_THREAD.
pub fn thread_object(heap: &Heap, roots: &ThreadRoots, serial: u32) -> u64
    ensures { AreThreadRoots (facts_of heap.now) roots.now → IsThreadObject (facts_of heap.now) serial result }
{
    let root = roots.root_of(serial);
    let object = object_of_root(root);
    let start = find_start(heap, serial);
    if object == 0 {
        object_of_start(start)
    } else {
        object
    }
}
