//! The roots of all threads of a heap, collected in one pass.

ghost use Rattle.std.specs.Prelude.{◌≡◌, IfOk, List, OnOk};
ghost use Rattle.std.specs.Ordering.{nat_cmp};
ghost use Rattle.std.specs.BTreeMap.{get};
ghost use Rattle.hprof_items.specs.FactValue.{FactValue, value_of};
ghost use Rattle.hprof_heap.specs.HeapFacts.{facts_of};
ghost use Rattle.hprof_threads.specs.Threads.{IsRootOfThread};
ghost use Rattle.hprof_threads.specs.ThreadRoots.{AreThreadRoots, NotesRoot, gives_way};

use crate::thread_root::{ThreadRoot, thread_root_in};
use hprof_heap::{Heap, Table, table_facts};
use hprof_items::Fact;
use std::alloc::{AllocError, Global};
use std::collections::BTreeMap;

/// The roots of all threads, by the serial numbers of the threads.
///
/// The root of a thread is its first thread object root in canonical order; one whose object is 0 counts only if the thread has no other.
/// This is this project's own rule.
#[derive(Drop)]
pub struct ThreadRoots {
    roots: BTreeMap<u32, ThreadRoot>,
}

impl ThreadRoots {
    /// Returns the roots of a heap's threads, in one pass over its GC roots. If memory runs out, the answer is `AllocError`.
    pub fn of(alloc: Global, heap: &Heap) -> Result<ThreadRoots, AllocError>
        ensures { IfOk result (AreThreadRoots (facts_of heap.now)) }
    {
        let mut roots = ThreadRoots {
            roots: BTreeMap::new(alloc),
        };
        for fact in table_facts(heap, Table::Roots) {
            roots.note(&fact)?;
        }
        Ok(roots)
    }

    /// Returns whether the thread has no root so far, or one without an object, which a root with this object replaces.
    fn gives_way(&self, serial: u32, object: u64) -> bool
        ensures { result ≡ gives_way (get nat_cmp self.now.roots serial) object }
    {
        match self.roots.get(&serial) {
            Some(root) => root.object == 0 && object != 0,
            None => true,
        }
    }

    /// Stores the root that a fact states, if it is the first of its thread so far.
    fn note(&mut self, fact: &Fact<'_>) -> Result<(), AllocError>
        ensures { OnOk result (NotesRoot (value_of fact.now) self.old self.new) }
    {
        match thread_root_in(fact) {
            Some((serial, root)) => {
                if self.gives_way(serial, root.object) {
                    self.roots.insert(serial, root)?;
                }
                Ok(())
            }
            None => Ok(()),
        }
    }

    /// Returns the root of the thread with this serial number, or `None` if it has no thread object root.
    pub fn root_of(&self, serial: u32) -> Option<ThreadRoot>
        ensures { (facts : List FactValue) → AreThreadRoots facts self.now → IsRootOfThread facts serial result }
    {
        self.roots.get(&serial).copied()
    }
}
