//! Making a product of parts.

ghost use Rattle.std.specs.Prelude.{◌≡◌, ℕ, List, All, IfOk};
ghost use Rattle.std.specs.Io.KnownBytes.{Appends};
ghost use Rattle.hprof_devices.specs.declared.health.Health.TheVariants.{Well};
ghost use Rattle.hprof_stream.specs.declared.summary.PartSummary.{PartSummary};
ghost use Rattle.hprof_heap.specs.Heap.{heap_of};
ghost use Rattle.hprof_engine.specs.Joining.{Tell, Agree, fault_of};
ghost use Rattle.hprof_engine.specs.Makes.{Makes, making_of};

use crate::product::{Product, ProductFault};
use crate::read::read_heap;
use crate::tool_fault::ToolFault;
use hprof_devices::{Source, Target};
use hprof_heap::{Gatherer, Heap};
use hprof_stream::Limits;
use std::alloc::Global;

impl From<ProductFault> for ToolFault {
    ghost use Rattle.hprof_engine.specs.Makes.{fault_of_stop};

    ghost from_gives = { λ stop fault. fault ≡ fault_of_stop stop };

    fn from(stop: ProductFault) -> ToolFault {
        match stop {
            ProductFault::Write(fault) => ToolFault::Write(fault),
            ProductFault::Refused(refusal) => ToolFault::Refused(refusal),
            ProductFault::OutOfMemory => ToolFault::OutOfMemory,
        }
    }
}

/// Reads all parts, writes the product of them, and returns their heap. A program that ends need not free it row by row.
pub fn make_to<P: Product, R: Source, W: Target>(
    alloc: Global,
    product: &P,
    readers: &mut [R],
    target: &mut W,
    limits: Limits,
) -> Result<Heap, ToolFault>
    requires readers { All (λ reader. R.health reader ≡ Well) readers.old }
    requires writer { W.health target.old ≡ Well }
    ensures makes { Makes R.left R.health R.pulls W.written W.health limits
        (making_of (P.is_text product.now) (P.refuses product.now) (P.takes_room product.now) (P.takes_memory product.now))
        readers.old readers.new target.old target.new (fault_of result) }

    // What is handed back is of the parts, and its text was written.
    ensures heap { IfOk result (λ found. (parts : List (List ℕ)) → Tell R.left readers.old parts
        → let heap = heap_of found in Agree parts heap.ids heap.millis heap.facts) }
    ensures text { IfOk result (λ found. (summaries : List PartSummary) × (text : List ℕ)
        × P.is_text product.now summaries (heap_of found) text
        × Appends (W.written target.old) (W.written target.new) text) }
{
    let Ok(mut kept) = product.with_room(alloc, readers.len()) else {
        return Err(ToolFault::OutOfMemory);
    };
    let gatherer = Gatherer::new(alloc);
    let heap = match read_heap(alloc, readers, limits, gatherer, product, &mut kept) {
        Ok(heap) => heap,
        Err(fault) => return Err(fault),
    };
    match product.write(alloc, &kept, &heap, target) {
        Ok(()) => Ok(heap),
        Err(stop) => Err(ToolFault::from(stop)),
    }
}

/// Reads all parts, and writes the product of them.
pub fn write_to<P: Product, R: Source, W: Target>(
    alloc: Global,
    product: &P,
    readers: &mut [R],
    target: &mut W,
    limits: Limits,
) -> Result<(), ToolFault>
    requires readers { All (λ reader. R.health reader ≡ Well) readers.old }
    requires writer { W.health target.old ≡ Well }
    ensures { Makes R.left R.health R.pulls W.written W.health limits
        (making_of (P.is_text product.now) (P.refuses product.now) (P.takes_room product.now) (P.takes_memory product.now))
        readers.old readers.new target.old target.new (fault_of result) }
{
    match make_to(alloc, product, readers, target, limits) {
        Ok(_heap) => Ok(()),
        Err(fault) => Err(fault),
    }
}
