//! Joining parts into a 1.0.1 dump.

ghost use Rattle.std.specs.Prelude.{◌≡◌, ◌≤◌, ℕ, List, All, IfOk};
ghost use Rattle.std.specs.Io.KnownBytes.{Appends};
ghost use Rattle.hprof_devices.specs.declared.health.Health.TheVariants.{Well};
ghost use Rattle.hprof_heap.specs.Heap.{heap_of};
ghost use Rattle.hprof_items.specs.Spelling.{longest_body};
ghost use Rattle.hprof_engine.specs.Joining.{Tell, Agree, AreJoined, fault_of};
ghost use Rattle.hprof_engine.specs.Makes.{Makes};
ghost use Rattle.hprof_dump.specs.Dump101.{dump101, sub_len};
ghost use Rattle.hprof_engine.specs.Joining101.{Refuses101, dump101_making};

use crate::heap_fault::HeapFault;
use crate::heap_product::HeapProduct;
use crate::joined::{Joined, JoinedHeap, join_with};
use crate::product::ProductFault;
use crate::tool_fault::ToolFault;
use hprof_devices::{Source, Target};
use hprof_dump::{DumpFault, write_v101};
use hprof_heap::Heap;
use hprof_stream::Limits;
use std::alloc::Global;

/// The 1.0.1 dump. A heap whose sub-records have more than 4,294,967,295 bytes together has none.
#[derive(Clone, Copy)]
pub struct Dump101;

impl HeapProduct for Dump101 {
    ghost use Rattle.std.proofs.Common.{sym, ◌∙◌};

    ghost is_text = { λ dump heap text. (sub_len heap.ids heap.facts ≤ longest_body) × (text ≡ dump101 heap.ids heap.millis heap.facts) };

    ghost refuses = { λ dump. Refuses101 };

    ghost takes_memory = { λ dump. ⊥ };

    fn write_heap<W: Target>(
        &self,
        _alloc: Global,
        heap: &Heap,
        target: &mut W,
    ) -> Result<(), ProductFault> {
        match write_v101(heap, u32::MAX, target) {
            Ok(()) => Ok(()),
            Err(DumpFault::TooLong) => Err(ProductFault::Refused(HeapFault::DumpTooLong)),
            Err(DumpFault::Write(fault)) => Err(ProductFault::Write(fault)),
        }
    }

    ghost one_text = { λ dump heap one other is is_too. is.1 ∙ sym is_too.1 };
}

/// Does what [`join101_to`] does, and returns the heap that was written, too: a program that ends need not free it row by row.
pub fn join101_returning_heap<R: Source, W: Target>(
    alloc: Global,
    readers: &mut [R],
    target: &mut W,
    limits: Limits,
) -> Result<JoinedHeap, ToolFault>
    requires readers { All (λ reader. R.health reader ≡ Well) readers.old }
    requires writer { W.health target.old ≡ Well }
    ensures makes { Makes R.left R.health R.pulls W.written W.health limits dump101_making
        readers.old readers.new target.old target.new (fault_of result) }
    ensures joined { IfOk result (λ kept. (parts : List (List ℕ)) → Tell R.left readers.old parts → AreJoined parts kept.joined) }

    // The heap that is handed back is what the parts agree on, and the one whose dump was written.
    ensures agree { IfOk result (λ kept. (parts : List (List ℕ)) → Tell R.left readers.old parts
        → let heap = heap_of kept.heap in Agree parts heap.ids heap.millis heap.facts) }
    ensures heap { IfOk result (λ kept. let heap = heap_of kept.heap in
        Appends (W.written target.old) (W.written target.new) (dump101 heap.ids heap.millis heap.facts)) }
{
    join_with(alloc, &Dump101, readers, target, limits)
}

/// Reads all parts, and writes the 1.0.1 dump of their facts.
///
/// It is refused as too long if and only if the sub-records of these facts have more than 4,294,967,295 bytes together. Then
/// nothing was written.
pub fn join101_to<R: Source, W: Target>(
    alloc: Global,
    readers: &mut [R],
    target: &mut W,
    limits: Limits,
) -> Result<Joined, ToolFault>
    requires readers { All (λ reader. R.health reader ≡ Well) readers.old }
    requires writer { W.health target.old ≡ Well }
    ensures makes { Makes R.left R.health R.pulls W.written W.health limits dump101_making
        readers.old readers.new target.old target.new (fault_of result) }
    ensures joined { IfOk result (λ joined. (parts : List (List ℕ)) → Tell R.left readers.old parts → AreJoined parts joined) }
{
    match join101_returning_heap(alloc, readers, target, limits) {
        Ok(kept) => Ok(kept.joined),
        Err(fault) => Err(fault),
    }
}
