//! The subclasses of each class.

ghost use Rattle.std.specs.Prelude.{◌↔◌, ℕ, IfOk, Contains};
ghost use Rattle.hprof_heap.specs.HeapFacts.{facts_of};
ghost use Rattle.hprof_layouts.specs.WaitingLists.{waiting_for};
ghost use Rattle.hprof_weak.specs.Strengths.{IsSubclass};

use hprof_heap::{Heap, Table, table_facts, to_class_dump};
use hprof_layouts::WaitingLists;
use std::alloc::{AllocError, Global};

/// Returns the classes that wait for their superclass, in one pass over the class dumps. A class 0 does not wait.
pub(crate) fn subclasses_of(alloc: Global, heap: &Heap) -> Result<WaitingLists<u64>, AllocError>
    ensures { IfOk result (λ lists. (superclass class : ℕ) → Contains (waiting_for lists superclass) class
        ↔ IsSubclass (facts_of heap.now) superclass class) }
{
    let mut lists = WaitingLists::new(alloc);
    for fact in table_facts(heap, Table::Classes) {
        if let Some(dump) = to_class_dump(&fact) {
            if dump.id != 0 {
                lists.add(dump.parent, dump.id)?;
            }
        }
    }
    Ok(lists)
}
