//! The objects that GC roots keep alive.

ghost use Rattle.std.specs.Prelude.{◌≡◌, ◌↔◌, ℕ, IfOk, Contains};
ghost use Rattle.hprof_heap.specs.HeapFacts.{facts_of};
ghost use Rattle.hprof_reach.specs.Reaching.{IsRooted, root_id};

use hprof_heap::{Heap, Table, table_facts, table_len};
use hprof_items::Fact;
use hprof_values::Root;
use std::alloc::{AllocError, Global};

/// Returns the object that a root keeps alive.
pub(crate) fn root_id(root: Root) -> u64
    ensures { result ≡ root_id root }
{
    match root {
        Root::JniGlobal { id, .. } => id,
        Root::JniLocal { id, .. } => id,
        Root::JavaFrame { id, .. } => id,
        Root::NativeStack { id, .. } => id,
        Root::Sticky { id } => id,
        Root::Block { id, .. } => id,
        Root::Monitor { id } => id,
        Root::ThreadObject { id, .. } => id,
        Root::Unknown { id } => id,
    }
}

/// Returns the objects that the roots of a heap keep alive, in any order. Repetitions are possible. If memory runs out, the answer is
/// `AllocError`.
pub(crate) fn starts_of(alloc: Global, heap: &Heap) -> Result<Vec<u64>, AllocError>
    ensures { IfOk result (λ starts. (id : ℕ) → Contains starts.items id ↔ IsRooted (facts_of heap.now) id) }
{
    let mut starts = Vec::with_capacity(alloc, table_len(heap, Table::Roots))?;
    for fact in table_facts(heap, Table::Roots) {
        if let Fact::Root(root) = fact {
            starts.push(root_id(root))?;
        }
    }
    Ok(starts)
}
