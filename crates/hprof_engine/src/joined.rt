//! Joining parts into one dump, of whatever form, and the result.

ghost use Rattle.std.specs.Prelude.{◌≡◌, ℕ, List, All, IfOk};
ghost use Rattle.std.specs.Io.KnownBytes.{Appends};
ghost use Rattle.hprof_devices.specs.declared.health.Health.TheVariants.{Well};
ghost use Rattle.hprof_heap.specs.Heap.{heap_of};
ghost use Rattle.hprof_engine.specs.Joining.{Tell, Agree, AreJoined, fault_of};
ghost use Rattle.hprof_engine.specs.Makes.{Makes, making_of};

use crate::heap_product::HeapProduct;
use crate::make::make_to;
use crate::tool_fault::ToolFault;
use hprof_devices::{Source, Target};
use hprof_heap::Heap;
use hprof_stream::Limits;
use std::alloc::Global;

/// The number of parts that were joined, and of their facts, each counted once.
#[derive(Clone, Copy, Debug, PartialEq, Eq)]
pub struct Joined {
    /// The number of parts.
    pub parts: usize,
    /// The number of distinct facts.
    pub facts: u128,
}

/// The result of a join, with the heap whose dump was written.
#[derive(Drop)]
pub struct JoinedHeap {
    /// The numbers of parts and facts.
    pub joined: Joined,
    /// The heap whose dump was written.
    pub heap: Heap,
}

/// Reads all parts, writes the product of the heap that they state, and returns that heap with the number of parts and of
/// facts.
pub fn join_with<P: HeapProduct, R: Source, W: Target>(
    alloc: Global,
    product: &P,
    readers: &mut [R],
    target: &mut W,
    limits: Limits,
) -> Result<JoinedHeap, ToolFault>
    requires readers { All (λ reader. R.health reader ≡ Well) readers.old }
    requires writer { W.health target.old ≡ Well }
    ensures makes { Makes R.left R.health R.pulls W.written W.health limits
        (making_of (λ summaries. P.is_text product.now) (P.refuses product.now) (λ parts. ⊥) (P.takes_memory product.now))
        readers.old readers.new target.old target.new (fault_of result) }
    ensures joined { IfOk result (λ kept. (parts : List (List ℕ)) → Tell R.left readers.old parts → AreJoined parts kept.joined) }

    // The heap that is handed back is what the parts agree on, and the one whose product was written.
    ensures agree { IfOk result (λ kept. (parts : List (List ℕ)) → Tell R.left readers.old parts
        → let heap = heap_of kept.heap in Agree parts heap.ids heap.millis heap.facts) }
    ensures text { IfOk result (λ kept. (text : List ℕ) × P.is_text product.now (heap_of kept.heap) text
        × Appends (W.written target.old) (W.written target.new) text) }
{
    match make_to(alloc, product, readers, target, limits) {
        Ok(heap) => {
            let joined = Joined {
                parts: readers.len(),
                facts: heap.count(),
            };
            Ok(JoinedHeap { joined, heap })
        }
        Err(fault) => Err(fault),
    }
}
