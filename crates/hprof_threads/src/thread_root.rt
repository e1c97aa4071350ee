//! The root of a thread.

ghost use Rattle.std.specs.Prelude.{◌≡◌};
ghost use Rattle.hprof_items.specs.FactValue.{value_of};
ghost use Rattle.hprof_threads.specs.ThreadRoots.{thread_root_in};

use hprof_items::Fact;
use hprof_values::Root;

/// A thread object root of a thread: heapDumper.cpp, HPROF_GC_ROOT_THREAD_OBJ.
#[derive(Clone, Copy, Debug, PartialEq, Eq)]
pub struct ThreadRoot {
    /// The thread object; 0 for none.
    pub object: u64,
    /// The serial number of the stack trace.
    pub trace: u32,
}

/// Returns the thread object root that a fact states, behind the serial number of its thread, or `None` if the fact is another one.
pub(crate) fn thread_root_in(fact: &Fact<'_>) -> Option<(u32, ThreadRoot)>
    ensures { result ≡ thread_root_in (value_of fact.now) }
{
    match *fact {
        Fact::Root(Root::ThreadObject { id, thread, trace }) => {
            Some((thread, ThreadRoot { object: id, trace }))
        }
        _ => None,
    }
}
