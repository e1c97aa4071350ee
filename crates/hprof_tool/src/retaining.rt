//! What the classes and objects of a heap retain.

ghost use Rattle.std.specs.Prelude.{IfOk};
ghost use Rattle.hprof_heap.specs.HeapFacts.{facts_of, size_of};
ghost use Rattle.hprof_retained.specs.Tree.{IsTreeOf};

use hprof_heap::Heap;
use hprof_retained::{Retained, retained_of};
use hprof_weak::weak_fields;
use std::alloc::{AllocError, Global};

/// Returns the tree of dominators of a heap, with what each class and object retains: what only it holds. Weak, soft and phantom references
/// hold nothing. If memory runs out, the answer is `AllocError`.
pub fn retained(alloc: Global, heap: &Heap) -> Result<Retained, AllocError>
    ensures { IfOk result (IsTreeOf (size_of heap.now) (facts_of heap.now)) }
{
    let weak = weak_fields(alloc, heap)?;
    retained_of(alloc, heap, &weak)
}
