//! Joining parts.

ghost use Rattle.std.specs.Prelude.{◌≡◌, ℕ, List, All, IfOk};
ghost use Rattle.std.specs.Io.KnownBytes.{Appends};
ghost use Rattle.hprof_devices.specs.declared.health.Health.TheVariants.{Well};
ghost use Rattle.hprof_dump.specs.Dump.{canonical_dump};
ghost use Rattle.hprof_heap.specs.Heap.{heap_of};
ghost use Rattle.hprof_engine.specs.Joining.{Tell, Agree, AreJoined, fault_of};
ghost use Rattle.hprof_engine.specs.Makes.{Makes, dump_making};

use crate::heap_product::HeapProduct;
use crate::joined::{Joined, JoinedHeap, join_with};
use crate::product::ProductFault;
use crate::tool_fault::ToolFault;
use hprof_devices::{Source, Target};
use hprof_dump::write_canonical;
use hprof_heap::Heap;
use hprof_stream::Limits;
use std::alloc::Global;

/// The canonical dump.
#[derive(Clone, Copy)]
pub struct Dump;

impl HeapProduct for Dump {
    ghost use Rattle.std.proofs.Common.{sym, ◌∙◌};

    ghost is_text = { λ dump heap text. text ≡ canonical_dump heap.ids heap.millis heap.facts };

    ghost refuses = { λ dump refusal heap. ⊥ };

    ghost takes_memory = { λ dump. ⊥ };

    fn write_heap<W: Target>(
        &self,
        _alloc: Global,
        heap: &Heap,
        target: &mut W,
    ) -> Result<(), ProductFault> {
        match write_canonical(heap, target) {
            Ok(()) => Ok(()),
            Err(fault) => Err(ProductFault::Write(fault)),
        }
    }

    ghost one_text = { λ dump heap one other is is_too. is ∙ sym is_too };
}

/// Does what [`join_to`] does, and returns the heap that was written, too: a program that ends need not free it row by row.
pub fn join_returning_heap<R: Source, W: Target>(
    alloc: Global,
    readers: &mut [R],
    target: &mut W,
    limits: Limits,
) -> Result<JoinedHeap, ToolFault>
    requires readers { All (λ reader. R.health reader ≡ Well) readers.old }
    requires writer { W.health target.old ≡ Well }
    ensures makes { Makes R.left R.health R.pulls W.written W.health limits dump_making
        readers.old readers.new target.old target.new (fault_of result) }
    ensures joined { IfOk result (λ kept. (parts : List (List ℕ)) → Tell R.left readers.old parts → AreJoined parts kept.joined) }

    // The heap that is handed back is what the parts agree on, and the one whose dump was written.
    ensures agree { IfOk result (λ kept. (parts : List (List ℕ)) → Tell R.left readers.old parts
        → let heap = heap_of kept.heap in Agree parts heap.ids heap.millis heap.facts) }
    ensures heap { IfOk result (λ kept. let heap = heap_of kept.heap in
        Appends (W.written target.old) (W.written target.new) (canonical_dump heap.ids heap.millis heap.facts)) }
{
    join_with(alloc, &Dump, readers, target, limits)
}

/// Reads all parts, and writes the canonical dump of their facts.
///
/// The bytes depend on the facts alone, not on the order of the parts, on repeated parts or on how the facts are divided
/// among them. The dump reads back to the same facts. If one key has two contents, the parts are refused with the least such
/// key, in every order.
pub fn join_to<R: Source, W: Target>(
    alloc: Global,
    readers: &mut [R],
    target: &mut W,
    limits: Limits,
) -> Result<Joined, ToolFault>
    requires readers { All (λ reader. R.health reader ≡ Well) readers.old }
    requires writer { W.health target.old ≡ Well }
    ensures makes { Makes R.left R.health R.pulls W.written W.health limits dump_making
        readers.old readers.new target.old target.new (fault_of result) }
    ensures joined { IfOk result (λ joined. (parts : List (List ℕ)) → Tell R.left readers.old parts → AreJoined parts joined) }
{
    match join_returning_heap(alloc, readers, target, limits) {
        Ok(kept) => Ok(kept.joined),
        Err(fault) => Err(fault),
    }
}
