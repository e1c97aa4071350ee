//! The known layouts of the classes of a heap.

ghost use Rattle.std.specs.Prelude.{IfOk};
ghost use Rattle.hprof_heap.specs.HeapFacts.{facts_of, size_of};
ghost use Rattle.hprof_layouts.specs.Known.{Knows};

use crate::known::KnownLayouts;
use hprof_heap::{Heap, Table, id_size, table_facts, to_class_dump};
use std::alloc::{AllocError, Global};

/// Returns the known layouts of a heap's classes, in one pass over its class dumps. If memory runs out, the answer is `AllocError`.
pub fn known_layouts(alloc: Global, heap: &Heap) -> Result<KnownLayouts, AllocError>
    ensures { IfOk result (Knows (size_of heap.now) (facts_of heap.now)) }
{
    let ids = id_size(heap);
    let mut known = KnownLayouts::new(alloc);
    for fact in table_facts(heap, Table::Classes) {
        if let Some(dump) = to_class_dump(&fact) {
            known.add_class(&dump, ids)?;
        }
    }
    Ok(known)
}
